// Names: 1 to 14 printable bytes, kept filled up with zeros.
ghost use Rattle.std.specs.Prelude.{◌≡◌, ◌<◌, ◌≤◌, true, false, length, MatchResult, slice_index};
ghost use Rattle.finite.specs.Finite.{every as every_of};
ghost use Rattle.layout.specs.Names.{printable, proper, padded, goes_on as goes_on_of, well_formed};
ghost use Rattle.layout.specs.declared.refusal.Refusal.TheVariants.{MalformedName};

use crate::malformed::Malformed;
use crate::refusal::Refusal;
use finite::every;

// A name as it is kept: filled up with zeros to 14 bytes.
#[derive(Clone, Copy, Debug, PartialEq, Eq)]
pub struct Name {
    pub bytes: [u8; 14],
    ghost formed: { well_formed bytes ≡ true },
    ghost long: { length bytes ≡ 14 },
}

fn is_printable(c: u8) -> bool
    ensures { result ≡ printable c }
{
    c.is_ascii_graphic()
}

fn is_all_printable(text: &[u8]) -> bool
    ensures { result ≡ every_of (length text.now) (λ k. printable (slice_index text.now k)) }
{
    text.iter().all(|&c| is_printable(c))
}

fn is_proper(text: &[u8]) -> bool
    ensures { result ≡ proper text.now }
{
    (text.len() >= 1 && text.len() <= 14) && is_all_printable(text)
}

// Whether the byte after place k ends a kept name, or goes on with it.
fn goes_on(title: &[u8; 14], k: usize) -> bool
    requires { k < 13 }
    ensures { result ≡ goes_on_of title.now k }
{
    let next = title[k + 1];
    next == 0 || (is_printable(next) && title[k] != 0)
}

fn is_well_formed(title: &[u8; 14]) -> bool
    ensures { result ≡ well_formed title.now }
{
    // By place, as the definition has it: `windows(2)` with `all` leaves its proof open.
    is_printable(title[0]) && every(13, |k| goes_on(title, k))
}

fn fill_up(text: &[u8]) -> [u8; 14]
    requires few { length text.now ≤ 14 }
    ensures { result ≡ padded text.now }
{
    let mut bytes = [0u8; 14];
    bytes[0..text.len()].copy_from_slice(text);
    bytes
}

// The name that a host gives, or a refusal.
impl TryFrom<&[u8]> for Name {
    type Error = Refusal;

    ghost try_from_gives = { λ text result. MatchResult result (λ n. (proper text.now ≡ true) × (n.bytes ≡ padded text.now))
        (λ e. (proper text.now ≡ false) × (e ≡ MalformedName)) };

    fn try_from(text: &[u8]) -> Result<Name, Refusal> {
        if !is_proper(text) {
            return Err(Refusal::MalformedName);
        }
        Ok(Name {
            bytes: fill_up(text),
        })
    }
}

// The name that 14 kept bytes are, if they are one.
impl TryFrom<[u8; 14]> for Name {
    type Error = Malformed;

    ghost try_from_gives = { λ bytes result. MatchResult result (λ n. n.bytes ≡ bytes) (λ _. well_formed bytes ≡ false) };

    fn try_from(bytes: [u8; 14]) -> Result<Name, Malformed> {
        if is_well_formed(&bytes) {
            Ok(Name { bytes })
        } else {
            Err(Malformed)
        }
    }
}
