ghost use Rattle.std.specs.Prelude.{◌≡◌, ◌≢◌, ◌↔◌, ◌<◌, ◌^◌, IsTrue, IfOk, IfErr, IfSome, IfNone, List, ℕ, length};
ghost use Rattle.std.proofs.Props.{props};
ghost use Rattle.git_header.specs.Ident.{IdentValue, IsIdent, IsIdentText, IsIdentValue, IsZone, EndsInSpace, sign_byte, spelled_time};
ghost use Rattle.git_header.specs.declared.ident.Sign.{Sign};
ghost use Rattle.git_header.specs.declared.fault.HeaderFault.TheVariants as fault;

use crate::fault::HeaderFault;
use crate::line::{after_word, cut};
use git_name::decimal;
use memchr::{memchr, memchr3};

// 2^63 - 1.
const MOST_SECONDS: u64 = 9223372036854775807;

/// Whether a time zone is east or west of Greenwich.
#[derive(Clone, Copy, Debug, PartialEq, Eq)]
pub enum Sign {
    /// `+`, to the east.
    Plus,
    /// `-`, to the west.
    Minus,
}

impl Sign {
    /// The byte for the sign.
    pub fn byte(self) -> u8
        ensures { result ≡ sign_byte self }
    {
        match self {
            Sign::Plus => b'+',
            Sign::Minus => b'-',
        }
    }
}

// Whether the bytes may be the text before or between the angle brackets.
fn is_ident_text(bytes: &[u8]) -> bool
    ensures { IsTrue result ↔ IsIdentText bytes.now }
{
    if memchr3(b'<', b'>', b'\n', bytes).is_some() {
        return false;
    }
    memchr(0, bytes).is_none()
}

// Whether the bytes are empty or end in a space.
fn ends_in_space(bytes: &[u8]) -> bool
    ensures { IsTrue result ↔ EndsInSpace bytes.now }
{
    match bytes {
        [] => true,
        [.., last] => *last == b' ',
    }
}

// Whether the bytes are four digits.
fn is_zone(zone: &[u8]) -> bool
    ensures { IsTrue result ↔ IsZone zone.now }
{
    if zone.len() != 4 {
        return false;
    }
    zone.iter().all(|b| *b >= b'0' && *b <= b'9')
}

// Reads a sign from its byte.
fn sign_of(byte: u8) -> Option<Sign>
    ensures found { IfSome result (λ sign. byte ≡ sign_byte sign) }
    ensures none { IfNone result ((sign : Sign) → byte ≢ sign_byte sign) }
{
    match byte {
        b'+' => Some(Sign::Plus),
        b'-' => Some(Sign::Minus),
        _ => None,
    }
}

// Reads what follows the angle brackets: the seconds, the sign and the time zone.
fn read_time(text: &[u8]) -> Option<(u64, Sign, &[u8])>
    ensures found { IfSome result (λ t. text.now ≡ spelled_time t.0 t.1 t.2.now) }
    ensures none { IfNone result ((seconds : ℕ) (sign : Sign) (zone : List ℕ) → seconds < 2 ^ 63 → text.now ≢ spelled_time seconds sign zone) }
{
    let Some(rest) = after_word(b" ", text) else {
        return None;
    };
    let Some((digits, rest)) = cut(b' ', rest) else {
        return None;
    };
    let Some(seconds) = decimal(digits) else {
        return None;
    };
    let [byte, zone @ ..] = rest else {
        return None;
    };
    let Some(sign) = sign_of(*byte) else {
        return None;
    };
    Some((seconds, sign, zone))
}

/// Who wrote or committed something, and when: a name, an email, the seconds since 1970 and the time zone. A
/// value of this type is always valid.
#[derive(Clone, Copy, Debug)]
pub struct Ident<'a> {
    name: &'a [u8],
    email: &'a [u8],
    seconds: u64,
    sign: Sign,
    zone: &'a [u8],
    pub ghost right: { IsIdentValue (record { name = name.now; email = email.now; seconds = seconds; sign = sign; zone = zone.now }) } by { Prim.hlevel props },
}

impl<'a> Ident<'a> {
    ghost use Rattle.git_header.specs.View.{ident_of};

    /// Builds an ident from its parts. The name is all that precedes `<`, so an empty name and a single space
    /// give two idents.
    pub fn new(
        name: &'a [u8],
        email: &'a [u8],
        seconds: u64,
        sign: Sign,
        zone: &'a [u8],
    ) -> Result<Ident<'a>, HeaderFault>
        ensures found { IfOk result (λ ident. ident_of ident ≡ record { name = name.now; email = email.now; seconds = seconds; sign = sign; zone = zone.now }) }
        ensures exact { IfErr result (λ why. (why ≡ fault.Ident) × (IsIdentValue (record { name = name.now; email = email.now; seconds = seconds; sign = sign; zone = zone.now }) → ⊥)) }
    {
        let fits = seconds <= MOST_SECONDS;
        if !fits || !is_zone(zone) {
            return Err(HeaderFault::Ident);
        }
        if !is_ident_text(name) || !is_ident_text(email) || !ends_in_space(name) {
            return Err(HeaderFault::Ident);
        }
        Ok(Ident {
            name,
            email,
            seconds,
            sign,
            zone,
        })
    }

    /// Reads an ident from its one spelling.
    pub fn read(text: &'a [u8]) -> Option<Ident<'a>>
        ensures found { IfSome result (λ ident. IsIdent (ident_of ident) text.now) }
        ensures none { IfNone result ((ident : IdentValue) → IsIdent ident text.now → ⊥) }
    {
        let Some((name, rest)) = cut(b'<', text) else {
            return None;
        };
        let Some((email, rest)) = cut(b'>', rest) else {
            return None;
        };
        let Some((seconds, sign, zone)) = read_time(rest) else {
            return None;
        };
        let Ok(ident) = Ident::new(name, email, seconds, sign, zone) else {
            return None;
        };
        Some(ident)
    }

    /// The bytes before `<`, with the space at their end.
    pub fn name(&self) -> &'a [u8]
        ensures { result.now ≡ (ident_of self.now).name }
    {
        self.name
    }

    /// The bytes between the angle brackets.
    pub fn email(&self) -> &'a [u8]
        ensures { result.now ≡ (ident_of self.now).email }
    {
        self.email
    }

    /// Seconds since 1970.
    pub fn seconds(&self) -> u64
        ensures { result ≡ (ident_of self.now).seconds }
    {
        self.seconds
    }

    /// The sign of the time zone.
    pub fn sign(&self) -> Sign
        ensures { result ≡ (ident_of self.now).sign }
    {
        self.sign
    }

    /// The four digits of the time zone: hours and minutes.
    pub fn zone(&self) -> &'a [u8]
        ensures { result.now ≡ (ident_of self.now).zone }
    {
        self.zone
    }
}
