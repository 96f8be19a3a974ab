// What is said, compared with what is expected: up to which place they are the same.
ghost use Rattle.std.specs.Prelude.{◌≡◌, ◌≤◌, length};
ghost use Rattle.vectors.specs.Compare.{alike, compared_at, ended_by};

// Different at this place: a byte differs there, or one of the two ends there.
#[derive(Clone, Copy, Debug, PartialEq, Eq)]
pub struct Differs {
    pub at: usize,
}

// How many bytes at the front of both are the same.
fn count_alike(said: &[u8], expected: &[u8]) -> usize
    ensures { result ≡ alike said.now expected.now }
{
    said.iter()
        .zip(expected)
        .take_while(|(x, y)| x == y)
        .count()
}

// Whether all that is said stands at a place of what is expected, and up to where.
#[tactic(auto, using(crate::specs::CompareLaws::comparing), unfolding(crate::specs::Compare::compared_at))]
pub fn compare_at(said: &[u8], expected: &[u8], at: usize) -> Result<usize, Differs>
    requires { at ≤ length expected.now }
    ensures { result ≡ compared_at at said.now expected.now }
{
    let same = count_alike(said, &expected[at..]);
    if same < said.len() {
        return Err(Differs { at: at + same });
    }
    Ok(at + same)
}

// Nothing more is said: whether more is expected.
pub fn end_at(outcome: Result<usize, Differs>, expected: &[u8]) -> Result<usize, Differs>
    ensures { result ≡ ended_by outcome expected.now }
{
    let at = outcome?;
    if at < expected.len() {
        return Err(Differs { at });
    }
    Ok(at)
}
