// The questions that a store's feature sections answer.
ghost use Rattle.std.specs.Prelude.{◌≡◌};
ghost use Rattle.perf_data.specs.Lists.{to_come};
ghost use Rattle.perf_data.specs.Questions.{question, answered, AnswersWhatIsSaid};
ghost use Rattle.perf_data.specs.Says.{SaysText, SaysTexts};
ghost use Rattle.perf_data.specs.Texts.{feature_string, command_line};

use crate::features::Feature;
use crate::string_list::{StringList, read_string_list};
use image::ask::section_of;
use image::store::Store;
use text::strings::{TextFault, read_string};
use wire::refusal::Refusal;

// The text of a feature whose section is a header text.
pub fn feature_string<'a, S: Store<'a>>(
    store: &S,
    feature: Feature,
) -> Result<Option<&'a str>, Refusal>
    ensures is { answered (λ x. x.now) result ≡ question (feature_string feature.0) (S.endian store.now) ((S.map store.now).at feature.0) }
    ensures law { AnswersWhatIsSaid SaysText (S.endian store.now) ((S.map store.now).at feature.0) (answered (λ x. x.now) result) }
{
    let Some(section) = section_of(store, feature.0) else {
        return Ok(None);
    };
    let refused = |fault: TextFault| fault.refusal(feature.0, 0);
    let (text, _) = read_string(section.order, section.bytes).map_err(refused)?;
    Ok(Some(text))
}

// The name of the machine that the recording was made on.
pub fn hostname<'a, S: Store<'a>>(store: &S) -> Result<Option<&'a str>, Refusal>
    ensures is { answered (λ x. x.now) result ≡ question (feature_string 3) (S.endian store.now) ((S.map store.now).at 3) }
    ensures law { AnswersWhatIsSaid SaysText (S.endian store.now) ((S.map store.now).at 3) (answered (λ x. x.now) result) }
{
    feature_string(store, Feature::HOSTNAME)
}

// The release of its operating system, as `uname -r` gives it.
pub fn os_release<'a, S: Store<'a>>(store: &S) -> Result<Option<&'a str>, Refusal>
    ensures is { answered (λ x. x.now) result ≡ question (feature_string 4) (S.endian store.now) ((S.map store.now).at 4) }
    ensures law { AnswersWhatIsSaid SaysText (S.endian store.now) ((S.map store.now).at 4) (answered (λ x. x.now) result) }
{
    feature_string(store, Feature::OSRELEASE)
}

// The version of the perf tool that made the recording.
pub fn perf_version<'a, S: Store<'a>>(store: &S) -> Result<Option<&'a str>, Refusal>
    ensures is { answered (λ x. x.now) result ≡ question (feature_string 5) (S.endian store.now) ((S.map store.now).at 5) }
    ensures law { AnswersWhatIsSaid SaysText (S.endian store.now) ((S.map store.now).at 5) (answered (λ x. x.now) result) }
{
    feature_string(store, Feature::VERSION)
}

// The architecture, as `uname -m` gives it.
pub fn arch<'a, S: Store<'a>>(store: &S) -> Result<Option<&'a str>, Refusal>
    ensures is { answered (λ x. x.now) result ≡ question (feature_string 6) (S.endian store.now) ((S.map store.now).at 6) }
    ensures law { AnswersWhatIsSaid SaysText (S.endian store.now) ((S.map store.now).at 6) (answered (λ x. x.now) result) }
{
    feature_string(store, Feature::ARCH)
}

// The processor in words: on x86 its model name.
pub fn cpu_desc<'a, S: Store<'a>>(store: &S) -> Result<Option<&'a str>, Refusal>
    ensures is { answered (λ x. x.now) result ≡ question (feature_string 8) (S.endian store.now) ((S.map store.now).at 8) }
    ensures law { AnswersWhatIsSaid SaysText (S.endian store.now) ((S.map store.now).at 8) (answered (λ x. x.now) result) }
{
    feature_string(store, Feature::CPUDESC)
}

// The exact processor: on x86 vendor, family, model and stepping.
pub fn cpu_id<'a, S: Store<'a>>(store: &S) -> Result<Option<&'a str>, Refusal>
    ensures is { answered (λ x. x.now) result ≡ question (feature_string 9) (S.endian store.now) ((S.map store.now).at 9) }
    ensures law { AnswersWhatIsSaid SaysText (S.endian store.now) ((S.map store.now).at 9) (answered (λ x. x.now) result) }
{
    feature_string(store, Feature::CPUID)
}

// The words of the command that made the recording.
pub fn cmdline<'a, S: Store<'a>>(store: &S) -> Result<Option<StringList<'a>>, Refusal>
    ensures is { answered to_come result ≡ question command_line (S.endian store.now) ((S.map store.now).at 11) }
    ensures law { AnswersWhatIsSaid SaysTexts (S.endian store.now) ((S.map store.now).at 11) (answered to_come result) }
{
    section_of(store, Feature::CMDLINE.0)
        .map(read_string_list)
        .transpose()
}
