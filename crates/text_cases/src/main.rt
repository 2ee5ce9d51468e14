// Reads texts from standard input, a line of hexadecimal for each, and prints whether the text is well formed, with its
// shown form in hexadecimal.
#![tactic(auto)]

ghost use Rattle.std.specs.Prelude.{◌≡◌, IfOk, if◌then◌else◌, codes};
ghost use Rattle.text.specs.Pieces.{shown as shown_form, well_formed};

use std::alloc::{AllocError, Global};
use std::io::{BufRead, BufReader};
use text::pieces::well_formed;
use text::shown::Shown;

#[cfg(test)]
mod tests;

// The bytes of a line: each a word of hexadecimal.
fn bytes_of(heap: Global, line: &str) -> anyhow::Result<Vec<u8>> {
    let mut bytes = Vec::new(heap);
    for word in line.split_whitespace() {
        bytes.push(u8::from_str_radix(word, 16)?)?;
    }
    Ok(bytes)
}

// The shown form of a text, whole.
fn shown(heap: Global, text: &[u8]) -> Result<Vec<u8>, AllocError>
    ensures { IfOk result (λ v. v.items ≡ shown_form text.now) }
{
    Shown::new(text).collect(heap)
}

fn verdict(text: &[u8]) -> &'static str
    ensures { result.now ≡ (if well_formed text.now then codes "well formed" else codes "ill formed") }
{
    if well_formed(text) {
        "well formed"
    } else {
        "ill formed"
    }
}

fn run(rt: &HostRuntime) -> anyhow::Result<()> {
    for line in BufReader::new(rt.alloc(), rt.stdin())?.lines(rt.alloc()) {
        let text = bytes_of(rt.alloc(), &line?)?;
        print!(rt; "{}:", verdict(&text))?;
        for byte in shown(rt.alloc(), &text)? {
            print!(rt; " {byte:02X}")?;
        }
        println!(rt)?;
    }
    Ok(())
}

fn main(rt: HostRuntime) -> anyhow::Result<()> {
    run(&rt)
}
