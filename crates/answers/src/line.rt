// A line, taken apart: QUESTION ORDER ROWS SECTION, where `detect` has the misc in the place of the rows.
ghost use Rattle.std.specs.Prelude.{◌≡◌, ◌≤◌, ◌%◌, ℕ, List, [], MatchResult, Option};
ghost use Rattle.wire.specs.declared.order.ByteOrder.{ByteOrder as Order};
ghost use Rattle.answers.specs.declared.line.Line.{Line as Words};
ghost use Rattle.dso_key.specs.Modes.{mode_of};
ghost use Rattle.hexadecimal.specs.Hex.{items};
ghost use Rattle.mappings.specs.Tables.{bytes_in};
ghost use Rattle.section_store.specs.Sections.{features_of};
ghost use Rattle.answers.specs.Lines.{short_section};
ghost use Rattle.answers.specs.Read.{order_word, IsNumberWord, IsSectionWord, IsLine, IsBad, first_word, other_words};

use crate::MOST_ROWS;
use crate::question::{Question, UnknownQuestion};
use dso_key::cpu_mode::CpuMode;
use hexadecimal::decode;
use perf_data::features::Feature;
use section_store::SectionStore;
use std::alloc::{AllocError, Global};
use std::num::ParseIntError;
use wire::order::ByteOrder;

// A line's words.
#[derive(Drop)]
pub struct Line {
    pub question: Question,
    order: ByteOrder,
    // The rows that are lent or, for `detect`, the misc.
    number: u32,
    section: Option<Vec<u8>>,
}

// Why there is no line.
#[derive(Debug, Drop)]
pub enum LineError {
    // it is not made of four such words
    Bad,
    Memory(AllocError),
}

impl From<AllocError> for LineError {
    ghost use Rattle.answers.specs.declared.line.LineError.TheVariants.{Memory};

    ghost from_gives = { λ error e. e ≡ Memory error };

    fn from(error: AllocError) -> LineError {
        LineError::Memory(error)
    }
}

impl From<UnknownQuestion> for LineError {
    fn from(_: UnknownQuestion) -> LineError {
        LineError::Bad
    }
}

impl From<ParseIntError> for LineError {
    fn from(_: ParseIntError) -> LineError {
        LineError::Bad
    }
}

// Two words, with a space between them.
fn pair(words: &str) -> Result<(&str, &str), LineError>
    ensures { MatchResult result (λ p. (p.0.now ≡ first_word words.now) × (p.1.now ≡ other_words words.now)) (λ _. other_words words.now ≡ []) }
{
    words.split_once(' ').ok_or(LineError::Bad)
}

// An order is read from other words by its FromStr.
fn order_of(word: &str) -> Result<ByteOrder, LineError>
    ensures { MatchResult result (λ order. word.now ≡ order_word order) (λ _. (order : Order) → word.now ≡ order_word order → ⊥) }
{
    match word {
        "le" => Ok(ByteOrder::Little),
        "be" => Ok(ByteOrder::Big),
        _ => Err(LineError::Bad),
    }
}

// The number in the place of the rows.
fn number_of(word: &str) -> Result<u32, LineError>
    ensures { MatchResult result (IsNumberWord word.now) (λ _. (number : ℕ) → ¬ (IsNumberWord word.now number)) }
{
    let number = word.parse::<u32>()?;
    if number > MOST_ROWS {
        return Err(LineError::Bad);
    }
    Ok(number)
}

fn section_of(heap: Global, word: &str) -> Result<Option<Vec<u8>>, LineError>
    ensures { MatchResult result (λ section. IsSectionWord word.now (items section)) (λ e. IsBad e → (section : Option (List ℕ)) → ¬ (IsSectionWord word.now section)) }
{
    if word == "-" {
        return Ok(None);
    }
    let digits = word.strip_prefix("x").ok_or(LineError::Bad)?;
    let bytes = decode(heap, digits.as_bytes())?.ok_or(LineError::Bad)?;
    Ok(Some(bytes))
}

impl Line {
    pub(crate) fn read(heap: Global, text: &str) -> Result<Line, LineError>
        ensures { MatchResult result (IsLine text.now) (λ e. IsBad e → (line : Words) → ¬ (IsLine text.now line)) }
    {
        let (question, rest) = pair(text)?;
        let (order, rest) = pair(rest)?;
        let (number, section) = pair(rest)?;
        Ok(Line {
            question: question.parse::<Question>()?,
            order: order_of(order)?,
            number: number_of(number)?,
            section: section_of(heap, section)?,
        })
    }

    // How many rows a question for a table is lent.
    pub(crate) fn rows(&self) -> usize
        ensures { result ≡ self.now.number }
    {
        self.number as usize
    }

    // The mode of a question for a key.
    // `of_misc` takes a u16, and 65,536 may stand here.
    pub(crate) fn cpu_mode(&self) -> CpuMode
        ensures { result ≡ mode_of (self.now.number % 8) }
    {
        CpuMode::from(self.number % 8)
    }

    // The section's bytes; none where it is absent.
    pub(crate) fn bytes(&self) -> &[u8]
        ensures { result.now ≡ bytes_in (items self.now.section) }
    {
        self.section.as_deref().unwrap_or(&[])
    }

    // The section, as that of a feature; or a store with none.
    pub(crate) fn store(&self, feature: Feature) -> SectionStore<'_>
        ensures order { result.order ≡ self.now.order }
        ensures section { feature.0 ≤ 255 → (features_of result).at feature.0 ≡ short_section (items self.now.section) }
    {
        match &self.section {
            Some(bytes) => SectionStore::new(self.order, feature.0, bytes),
            None => SectionStore::absent(self.order),
        }
    }
}
