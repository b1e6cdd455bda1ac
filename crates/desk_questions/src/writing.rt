// The call that writes the desk's case into a lent buffer.
ghost use Rattle.std.specs.Prelude.{[], ◌∷◌};
ghost use Rattle.desk.specs.Desk.{Question};
ghost use Rattle.desk_check.specs.Read.{desk_in};
ghost use Rattle.desk_questions.specs.Answer.{AsksWith, length_reply};

use desk_check::Desk;
use elements::Codes;
use refusal::Refusal;

// Writes the case without gaps at the front of a buffer, and says how many bytes it has. The bytes after it are unchanged.
// The length, which fits, is a u32 by `as`: there is no `From` of a usize.
pub fn write(d: Desk, out: &mut [u8]) -> Result<u32, Refusal>
    ensures { AsksWith (out.new ∷ []) (Question.Write out.old) (desk_in d.entry) (length_reply result) }
{
    let mut w = Codes::new();
    d.examine(&mut w)?;
    let case = d.case();
    let n = case.gapless_length();
    if out.len() < n {
        return Err(Refusal::ShortBuffer);
    }
    case.write(out);
    Ok(n as u32)
}
