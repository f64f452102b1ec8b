// The end of a line of text.
ghost use Rattle.std.specs.Prelude.{◌≡◌};
ghost use Rattle.text.specs.Lines.{without_end, without_return, without_newline};

const RETURN: u8 = b'\r';

const NEWLINE: u8 = b'\n';

// A line without the carriage return that it may end with.
#[tactic(auto, unfolding(crate::specs::Lines::without_return))]
pub fn trim_return(line: &[u8]) -> &[u8]
    ensures { result.now ≡ without_return line.now }
{
    trim_end(line, RETURN)
}

// A line without the newline that it may end with.
#[tactic(auto, unfolding(crate::specs::Lines::without_newline))]
pub fn trim_newline(line: &[u8]) -> &[u8]
    ensures { result.now ≡ without_newline line.now }
{
    trim_end(line, NEWLINE)
}

// A line without a byte that it may end with. By a pattern, since `strip_suffix` makes the reading of a line in hex a twentieth slower.
#[tactic(auto, using(std::proofs::lemmas::Bool::Decides::nat_tests))]
fn trim_end(line: &[u8], end: u8) -> &[u8]
    ensures { result.now ≡ without_end end line.now }
{
    match line {
        [front @ .., last] if *last == end => front,
        _ => line,
    }
}
