// What document 01 adds to keys: the keys of ancestors, as parts of the caller's own bytes.
#![tactic(auto)]

ghost use Rattle.std.specs.Prelude.{◌≡◌};
ghost use Rattle.errors.specs.Cases.{check_number};
ghost use Rattle.key_parts.specs.Parts.{ancestor_refusal, leading_part, shared_length, shared_refusal};

use constants::MAX_ZOOM;
use errors::Refusal;
use quadkey::check;

// The key of the ancestor with n digits: the leading part of the caller's own bytes. Empty where it is refused.
pub fn ancestor_key<'a>(key: &'a [u8], n: usize) -> &'a [u8]
    ensures { (result.ref_ptr, result.now) ≡ leading_part key.entry (ancestor_refusal key.now n) n }
{
    match ancestor_check(key, n) {
        Ok(()) => &key[..n],
        Err(_) => &key[..0],
    }
}

// The number of the refusal of `ancestor_key` on the same arguments; 0 where nothing is refused.
pub fn ancestor_key_refusal(key: &[u8], n: usize) -> u8
    ensures { result ≡ ancestor_refusal key.now n }
{
    errors::check_number(ancestor_check(key, n))
}

fn ancestor_check(key: &[u8], n: usize) -> Result<(), Refusal>
    ensures { check_number result ≡ ancestor_refusal key.now n }
{
    if key.len() < n {
        return Err(Refusal::NoRelative);
    }
    check(key)
}

// The key of the deepest ancestor that two keys share: a part of the first key. Empty where it is refused.
pub fn shared_key<'a, 'b>(a: &'a [u8], b: &'b [u8]) -> &'a [u8]
    ensures { (result.ref_ptr, result.now) ≡ leading_part a.entry (shared_refusal a.now b.now)
        (shared_length a.now b.now) }
{
    match shared_check(a, b) {
        Ok(()) => {
            let n = shared_length(a, b);
            &a[..n]
        }
        Err(_) => &a[..0],
    }
}

// The number of the refusal of `shared_key` on the same arguments; 0 where nothing is refused.
pub fn shared_key_refusal(a: &[u8], b: &[u8]) -> u8
    ensures { result ≡ shared_refusal a.now b.now }
{
    errors::check_number(shared_check(a, b))
}

// The refusal that is tested first over both keys: lengths, then bytes.
fn shared_check(a: &[u8], b: &[u8]) -> Result<(), Refusal>
    ensures { check_number result ≡ shared_refusal a.now b.now }
{
    if b.len() > MAX_ZOOM as usize {
        return Err(Refusal::KeyLength);
    }
    check(a)?;
    check(b)
}

fn shared_length(a: &[u8], b: &[u8]) -> usize
    ensures { result ≡ shared_length a.now b.now }
{
    let shorter = a.len().min(b.len());
    for i in 0..shorter {
        if a[i] != b[i] {
            return i;
        }
    }
    shorter
}
