// The table of the container: sizes, places and limits, each derived from those before it.
ghost use Rattle.std.specs.Prelude.{◌≡◌, ◌+◌, ◌≤◌};
ghost use Rattle.format.specs.Layout.{lease_limit, data_at, limit, extras_at, used_length};
ghost use Rattle.format.specs.Judging.{resized_to, with_extra};
ghost use Rattle.format.specs.View.{tail_size, place_at};

// What a container begins with.
pub const MAGIC: [u8; MAGIC_SIZE] = *b"tahoe mutable container v1\x0a\x75\x09\x44\x03\x8e";

pub(crate) const MAGIC_SIZE: usize = 32;

pub const NODE_SIZE: usize = 20;

// A write enabler, a renewal token or a cancel token.
pub const SECRET_SIZE: usize = 32;

// The width of the data size and of the offset of the count.
pub const SIZE_WIDTH: usize = 8;

pub(crate) const COUNT_SIZE: usize = 4;

// A lease record: owner, expiry, renewal token, cancel token, node id.
pub const EXPIRY_AT: usize = 4;

pub const RENEWAL_AT: usize = EXPIRY_AT + 4;

pub const CANCEL_AT: usize = RENEWAL_AT + SECRET_SIZE;

pub const LEASE_NODE_AT: usize = CANCEL_AT + SECRET_SIZE;

pub const RECORD_SIZE: usize = CANCEL_AT + SECRET_SIZE + NODE_SIZE;

pub const FIXED_PLACES: usize = 4;

pub(crate) const EXTRA_LIMIT: usize = 60;

pub const LEASE_LIMIT: usize = FIXED_PLACES + EXTRA_LIMIT;

pub const NODE_AT: usize = MAGIC_SIZE;

pub const ENABLER_AT: usize = NODE_AT + NODE_SIZE;

pub const SIZE_AT: usize = ENABLER_AT + SECRET_SIZE;

pub const OFFSET_AT: usize = SIZE_AT + SIZE_WIDTH;

pub const LEASES_AT: usize = OFFSET_AT + SIZE_WIDTH;

pub const DATA_AT: usize = LEASES_AT + FIXED_PLACES * RECORD_SIZE;

// The shortest buffer, and the longest.
pub const LEAST: usize = DATA_AT + COUNT_SIZE;

pub const LIMIT: usize = 16777216;

// What judging a container finds: the data size, the offset of the extra-lease count, and the number of extra leases.
// No invariant bounds them: `frame_of` (specs/Judging) is a frame of any bytes.
#[derive(Clone, Copy, Debug, PartialEq, Eq)]
pub struct Frame {
    pub size: usize,
    pub offset: usize,
    pub extras: usize,
}

impl Frame {
    // Where the data ends.
    pub fn data_end(self) -> usize
        requires { self.size ≤ limit }
        ensures { result ≡ data_at + self.size }
    {
        DATA_AT + self.size
    }

    // Where the extra leases begin.
    pub fn extras_at(self) -> usize
        requires { self.offset ≤ limit }
        ensures { result ≡ extras_at self.offset }
    {
        self.offset + COUNT_SIZE
    }

    // The size of count and extra leases.
    pub fn tail_size(self) -> usize
        requires { self.extras ≤ lease_limit }
        ensures { result ≡ tail_size self.extras }
    {
        COUNT_SIZE + RECORD_SIZE * self.extras
    }

    // The used length. The count's place may be one that a request would reach.
    pub fn used(self) -> usize
        requires { (self.offset ≤ data_at + 4294967296) × (self.extras ≤ lease_limit) }
        ensures { result ≡ used_length self.offset self.extras }
    {
        self.offset + self.tail_size()
    }

    // The frame with another size of the data, one that a request would reach: the count moves where it must.
    #[tactic(auto, unfolding(crate::specs::Layout::moved_count))]
    pub fn resized(self, size: usize) -> Frame
        requires { size ≤ 4294967296 }
        ensures { result ≡ resized_to self size }
    {
        Frame {
            size,
            offset: self.offset.max(DATA_AT + size),
            extras: self.extras,
        }
    }

    // The frame with one more extra lease.
    pub fn with_extra(self) -> Frame
        requires { self.extras ≤ lease_limit }
        ensures { result ≡ with_extra self }
    {
        Frame {
            size: self.size,
            offset: self.offset,
            extras: self.extras + 1,
        }
    }

    // Where lease place i begins: the four, then the extras.
    pub fn place_at(self, i: usize) -> usize
        requires { (self.offset ≤ limit) × (i ≤ lease_limit) }
        ensures { result ≡ place_at self.offset i }
    {
        if i < FIXED_PLACES {
            return LEASES_AT + RECORD_SIZE * i;
        }
        self.extras_at() + RECORD_SIZE * (i - FIXED_PLACES)
    }
}
