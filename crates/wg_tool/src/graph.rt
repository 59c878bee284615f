ghost use Rattle.std.specs.Prelude.{◌≡◌, ◌≢◌, ◌<◌, ◌≤◌, ◌^◌, ◌++◌, List, ℕ, length, Option, IsTrue, IfOk, IfSome, IfNone};
ghost use Rattle.std.specs.List.{list_any};
ghost use Rattle.wg_tool.specs.declared.pair.Pair.{Pair as PairOf};
ghost use Rattle.wg_words.specs.Each.{Each};
ghost use Rattle.wg_tool.specs.Parts.{is_name, ends_name};
ghost use Rattle.wg_tool.specs.FirstForm.{head_text, target_text, sending_text, pair_text, pairs_text, graph_text, IsGoodPair, is_named, names_differ, has_target, targets_are_later, IsFirstForm, IsNoGraph};

use crate::pair::{
    ADDS, ENDS, INPUT, MOST_PAIRS, OPENS, PAIR_HEAD, Pair, Pairs, QUIET, REQUESTS, STRUCT_LINE,
    Sends,
};
use crate::parts::{read_name, read_word, strip};
use std::alloc::{AllocError, Global};
use wg_words::Name;

/// The name of a pair, and what follows its input parameter.
fn read_head(bytes: &[u8]) -> Option<(&[u8], &[u8])>
    ensures found { IfSome result (λ x. IsTrue (is_name x.0.now) × (bytes.now ≡ head_text x.0.now ++ x.1.now)) }
    ensures none { IfNone result ((name more : List ℕ) → IsTrue (is_name name) → bytes.now ≢ head_text name ++ more) }
{
    let (name, rest) = read_name(strip(bytes, PAIR_HEAD)?)?;
    Some((name, strip(rest, INPUT)?))
}

/// The target of a node that sends, and what follows the plus sign.
fn read_target(bytes: &[u8]) -> Option<(&[u8], &[u8])>
    ensures found { IfSome result (λ x. IsTrue (is_name x.0.now) × (bytes.now ≡ target_text x.0.now ++ x.1.now)) }
    ensures none { IfNone result ((target more : List ℕ) → IsTrue (is_name target) → bytes.now ≢ target_text target ++ more) }
{
    let (target, rest) = read_name(strip(bytes, OPENS)?)?;
    let rest = strip(strip(rest, REQUESTS)?, target)?;
    Some((target, strip(rest, ADDS)?))
}

/// The target and the added word of a node that sends, and what follows its lines.
fn read_sending<'a>(
    alloc: Global,
    bytes: &'a [u8],
) -> Result<Option<(&'a [u8], u32, &'a [u8])>, AllocError>
    ensures found { IfOk result (λ o. IfSome o (λ x. IsTrue (is_name x.0.now) × (x.1 < 2 ^ 32) × (bytes.now ≡ sending_text x.0.now x.1 ++ x.2.now))) }
    ensures none { IfOk result (λ o. IfNone o ((target : List ℕ) (add : ℕ) (more : List ℕ) → IsTrue (is_name target) → add < 2 ^ 32 → bytes.now ≢ sending_text target add ++ more)) }
{
    let Some((target, rest)) = read_target(bytes) else {
        return Ok(None);
    };
    let Some((add, rest)) = read_word(alloc, rest)? else {
        return Ok(None);
    };
    let Some(rest) = strip(rest, ENDS) else {
        return Ok(None);
    };
    Ok(Some((target, add, rest)))
}

/// A pair of lines, and what follows it.
fn read_pair<'a>(alloc: Global, bytes: &'a [u8]) -> Result<Option<(Pair, &'a [u8])>, AllocError>
    ensures found { IfOk result (λ o. IfSome o (λ x. IsGoodPair x.0 × (bytes.now ≡ pair_text x.0 ++ x.1.now))) }
    ensures none { IfOk result (λ o. IfNone o ((p : PairOf) (more : List ℕ) → IsGoodPair p → bytes.now ≢ pair_text p ++ more)) }
{
    let Some((name, rest)) = read_head(bytes) else {
        return Ok(None);
    };
    let name = Name::from_slice(alloc, name)?;
    if let Some(rest) = strip(rest, QUIET) {
        return Ok(Some((Pair { name, sends: None }, rest)));
    }
    let Some((target, add, rest)) = read_sending(alloc, rest)? else {
        return Ok(None);
    };
    let target = Name::from_slice(alloc, target)?;
    let sends = Some(Sends { target, add });
    Ok(Some((Pair { name, sends }, rest)))
}

/// The pairs of lines that the bytes are, where they are at most 32.
fn read_pairs(alloc: Global, bytes: &[u8]) -> Result<Option<Vec<Pair>>, AllocError>
    ensures found { IfOk result (λ o. IfSome o (λ pairs. Each IsGoodPair pairs.items × (length pairs.items ≤ 32) × (bytes.now ≡ pairs_text pairs.items))) }
    ensures none { IfOk result (λ o. IfNone o ((pairs : List PairOf) → Each IsGoodPair pairs → length pairs ≤ 32 → bytes.now ≢ pairs_text pairs)) }
{
    let mut pairs = Vec::new(alloc);
    let mut rest = bytes;
    while !rest.is_empty() {
        if pairs.len() == MOST_PAIRS {
            return Ok(None);
        }
        let Some((pair, after)) = read_pair(alloc, rest)? else {
            return Ok(None);
        };
        pairs.push(pair)?;
        rest = after;
    }
    Ok(Some(pairs))
}

fn has_name(pairs: &[Pair], name: &[u8]) -> bool
    ensures { result ≡ list_any (is_named name.now) pairs.now }
{
    pairs.iter().any(|pair| pair.name.as_slice() == name)
}

fn names_differ(pairs: &[Pair]) -> bool
    ensures { result ≡ names_differ pairs.now }
{
    for (place, pair) in pairs.iter().enumerate() {
        if has_name(&pairs[place + 1..], pair.name.as_slice()) {
            return false;
        }
    }
    true
}

fn has_target(sends: &Option<Sends>, pairs: &[Pair]) -> bool
    ensures { result ≡ has_target sends.now pairs.now }
{
    match sends {
        None => true,
        Some(sends) => has_name(pairs, sends.target.as_slice()),
    }
}

fn targets_are_later(pairs: &[Pair]) -> bool
    ensures { result ≡ targets_are_later pairs.now }
{
    for (place, pair) in pairs.iter().enumerate() {
        if !has_target(&pair.sends, &pairs[place + 1..]) {
            return false;
        }
    }
    true
}

/// The pairs of a graph of the first form.
pub fn read_graph(alloc: Global, text: &[u8]) -> Result<Option<Pairs>, AllocError>
    ensures found { IfOk result (λ o. IfSome o (λ pairs. IsFirstForm pairs × (text.now ≡ graph_text pairs))) }
    ensures none { IfOk result (λ o. IfNone o (IsNoGraph text.now)) }
{
    let Some(bytes) = strip(text, STRUCT_LINE) else {
        return Ok(None);
    };
    let Some(pairs) = read_pairs(alloc, bytes)? else {
        return Ok(None);
    };
    if pairs.is_empty() || !names_differ(&pairs) || !targets_are_later(&pairs) {
        return Ok(None);
    }
    Ok(Some(Pairs::from_vec(pairs)))
}
