// How a question's answer is written, whatever the question.
ghost use Rattle.std.specs.Prelude.{◌≡◌, ℕ, List, ◌++◌, OnOk};
ghost use Rattle.std.specs.Iterator.{IsFinite, Drains};
ghost use Rattle.std.specs.String.{string_bytes};
ghost use Rattle.hexadecimal.specs.Hex.{text_of};
ghost use Rattle.perf_data.specs.Questions.{answered};
ghost use Rattle.answers.specs.Answers.{answer_text};

use hexadecimal::Hex;
use std::alloc::AllocError;
use wire::refusal::Refusal;

// What an answer tells, where there is one, in the words of docs/ASK.md: most of these types are of other crates, whose Display
// has others.
pub trait Told: Copy {
    // The words.
    ghost text: { Self → List ℕ };

    // Writes them.
    fn write(self, out: &mut String) -> Result<(), AllocError>
        ensures { OnOk result (string_bytes out.new ≡ string_bytes out.old ++ text self) };
}

// What is told, that nothing is, or why the question is refused.
pub(crate) fn write_answer<T: Told>(
    out: &mut String,
    answer: Result<Option<T>, Refusal>,
) -> Result<(), AllocError>
    ensures { OnOk result (string_bytes out.new ≡ string_bytes out.old ++ answer_text T.text (answered (λ x. x) answer)) }
{
    match answer {
        Ok(Some(told)) => told.write(out),
        Ok(None) => write!(out, "absent"),
        Err(refusal) => write!(out, "{refusal}"),
    }
}

// Bytes that come one after the other.
// It asks that they come and end, which no public function may ask, so `Hex` has a loop of its own.
pub(crate) fn write_hex<I: Iterator<Item = u8> + Drop>(
    out: &mut String,
    bytes: I,
) -> Result<(), AllocError>
    requires can { I.can_next bytes }
    requires ends { IsFinite (I.remaining bytes) }
    ensures { OnOk result ((given : List ℕ) × Drains I.next_gives bytes given × (string_bytes out.new ≡ string_bytes out.old ++ text_of given)) }
{
    for byte in bytes {
        write!(out, "{}", Hex(&[byte]))?;
    }
    Ok(())
}
