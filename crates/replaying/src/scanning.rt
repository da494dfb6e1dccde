// Runs of bytes of one sort.
ghost use Rattle.std.specs.Prelude.{◌≡◌, ◌+◌, ◌≤◌, length, drop};
ghost use Rattle.std.specs.List.{take_while};
ghost use Rattle.replaying.specs.Scanning.{is_of, run};

// Which bytes a run is made of: any but this one, this one alone, decimal digits.
#[derive(Clone, Copy, Debug, PartialEq, Eq)]
pub enum Sort {
    But(u8),
    Only(u8),
    Digit,
}

impl Sort {
    #[tactic(auto, unfolding(crate::specs::Scanning::is_of))]
    fn has(self, byte: u8) -> bool
        ensures { result ≡ is_of self byte }
    {
        match self {
            Sort::But(b) => byte != b,
            Sort::Only(b) => byte == b,
            Sort::Digit => byte.is_ascii_digit(),
        }
    }
}

// How many bytes of the sort stand at the front.
fn run(s: &[u8], sort: Sort) -> usize
    ensures value { result ≡ length (take_while (is_of sort) s.now) }
    ensures bound { result ≤ length s.now }
{
    s.iter().take_while(|&&byte| sort.has(byte)).count()
}

// The end of the run that begins at `at`, which is `at` itself where the run is empty.
pub fn run_end(s: &[u8], at: usize, sort: Sort) -> usize
    requires { at ≤ length s.now }
    ensures end { result ≡ at + run sort (drop at s.now) }
    ensures start { at ≤ result }
    ensures within { result ≤ length s.now }
{
    at + run(&s[at..], sort)
}
