//! Whether the keys of a dictionary differ.
ghost use Rattle.std.specs.Prelude.{◌≡◌, map, IfOk, OnOk};
ghost use Rattle.gd_variant.specs.Tree.{Tree, plain, plain_pair, plain_pairs};
ghost use Rattle.gd_variant.specs.Sound.{is_new_key, keys_distinct};
ghost use Rattle.variant_codec.specs.Known.{AreKnown, IsKnown};

use gd_variant::{OutOfMemory, Pair, Variant, same};
use std::alloc::Global;
use std::collections::BTreeSet;
use variant_codec::put;

/// Whether the key is none of the keys of the pairs.
fn is_new(key: &Variant, pairs: &[Pair]) -> bool
    ensures { result ≡ is_new_key (plain key.now) (plain_pairs pairs.now) }
{
    for pair in pairs {
        if same(key, &pair.key) {
            return false;
        }
    }
    true
}

/// Whether the key is none of the keys of the pairs, whose written forms are in the set; its own form
/// is added. Equal keys have one written form, so a form that is new is a new key, and keys are compared
/// one by one only where the form is there, as that of a repeated key is.
fn is_fresh(
    alloc: Global,
    seen: &mut BTreeSet<Vec<u8>>,
    pairs: &[Pair],
    key: &Variant,
) -> Result<bool, OutOfMemory>
    ensures fresh { AreKnown seen.old (map plain_pair pairs.now) → IfOk result (λ fresh. fresh ≡ is_new_key (plain key.now) (plain_pairs pairs.now)) }
    ensures keeps { OnOk result ((k : Tree) → IsKnown seen.old k → IsKnown seen.new k) }
    ensures adds { OnOk result (IsKnown seen.new (plain key.now)) }
{
    let mut form = Vec::new(alloc);
    put(key, &mut form)?;
    if seen.contains(form.as_slice()) {
        return Ok(is_new(key, pairs));
    }
    seen.insert(form)?;
    Ok(true)
}

/// Whether no key equals a later one. The pairs are seen from the last to the first.
pub fn are_distinct(alloc: Global, pairs: &[Pair]) -> Result<bool, OutOfMemory>
    ensures { IfOk result (λ distinct. distinct ≡ keys_distinct (plain_pairs pairs.now)) }
{
    let mut seen = BTreeSet::new(alloc);
    let mut at = pairs.len();
    let (_, mut later) = pairs.split_at(at);
    while at > 0 {
        at -= 1;
        let pair = &pairs[at];
        if !is_fresh(alloc, &mut seen, later, &pair.key)? {
            return Ok(false);
        }
        let (_, rest) = pairs.split_at(at);
        later = rest;
    }
    Ok(true)
}
