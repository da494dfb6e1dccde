// How an offset is resolved on data of some size.
ghost use Rattle.std.specs.Prelude.{◌≡◌};
ghost use Rattle.rules.specs.Testing.{position};
ghost use Rattle.requests.specs.Offsets.{resolved_of};

// The position that an offset names, if it names one. A negative offset counts from the end. -1 - offset is how far
// before it, and unlike -offset it exists for the lowest offset too.
pub fn resolve(offset: i32, size: usize) -> Option<usize>
    ensures { result ≡ resolved_of offset size }
{
    if 0 <= offset {
        return Some(offset as usize);
    }
    let back = (-1 - offset) as usize;
    size.checked_sub(back)
}

// The same for a walk that comes after every offset was seen to resolve, or whose result nobody reads where one does
// not: 0 where the offset names no position, as in the rules.
pub fn position(offset: i32, size: usize) -> usize
    ensures { result ≡ position offset size }
{
    resolve(offset, size).unwrap_or(0)
}
