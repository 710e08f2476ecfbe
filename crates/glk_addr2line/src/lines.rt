// The lines of the input.
ghost use Rattle.std.specs.Prelude.{◌≡◌};
ghost use Rattle.glk_addr2line.specs.Lines.{without_return as line_without_return};

const RETURN: u8 = b'\r';

// A line without the carriage return that it may end with.
#[tactic(auto, unfolding(crate::specs::Lines::without_return))]
pub(crate) fn without_return(line: &[u8]) -> &[u8]
    ensures { result.now ≡ line_without_return line.now }
{
    if !line.is_empty() && line[line.len() - 1] == RETURN {
        &line[..line.len() - 1]
    } else {
        line
    }
}
