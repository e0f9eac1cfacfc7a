//! How processes are named.
ghost use Rattle.std.specs.Prelude.{◌≡◌, ◌≢◌, true, false, [], length, All, Contains, Some, option_map, IfOk, IfErr};
ghost use Rattle.draw_cli.specs.SketchFaults.{IsNamesFault};
ghost use Rattle.draw_cli.specs.Names.{AreParts, IsMisnamed, IsNamed, seen};

use crate::sketch_fault::SketchFault;
use draw_shapes::Name;
use std::alloc::{AllocError, Global};

/// The names of `n` processes: those between the commas of a list, or `process 0` and so on where there is no list.
pub(crate) fn names_of(alloc: Global, list: Option<&str>, n: u32) -> Result<Vec<Name>, SketchFault>
    ensures named { IfOk result (λ names. IsNamed (option_map (λ text. text.now) list.entry) n) }
    ensures count { IfOk result (λ names. length names.items ≡ n) }
    ensures fault { IfErr result (IsNamesFault (IsMisnamed (option_map (λ text. text.now) list.entry) n)) }
{
    match list {
        Some(list) => listed(alloc, list, n),
        None => Ok(numbered(alloc, n)?),
    }
}

/// The names `process 0` and so on.
fn numbered(alloc: Global, n: u32) -> Result<Vec<Name>, AllocError>
    ensures { IfOk result (λ names. length names.items ≡ n) }
{
    let mut names = Vec::with_capacity(alloc, n as usize)?;
    for p in 0..n {
        let text = format!(in alloc; "process {p}")?;
        names.push(Name::new(alloc, text.as_str())?)?;
    }
    Ok(names)
}

/// The `n` names that stand between the commas of a list.
fn listed(alloc: Global, list: &str, n: u32) -> Result<Vec<Name>, SketchFault>
    ensures named { IfOk result (λ names. IsNamed (Some list.now) n) }
    ensures count { IfOk result (λ names. length names.items ≡ n) }
    ensures fault { IfErr result (IsNamesFault (IsMisnamed (Some list.now) n)) }
{
    let parts = parts_of(alloc, list)?;
    if parts.len() != n as usize || has_empty(&parts) {
        return Err(SketchFault::Names);
    }
    Ok(names_from(alloc, &parts)?)
}

/// What stands between the commas of a list.
fn parts_of(alloc: Global, list: &str) -> Result<Vec<&str>, AllocError>
    ensures { IfOk result (λ parts. AreParts list.now (seen parts.items)) }
{
    list.split(',').collect(alloc)
}

/// Whether one of the texts is empty.
fn has_empty(texts: &[&str]) -> bool
    ensures some { result ≡ true → Contains (seen texts.now) [] }
    ensures none { result ≡ false → All (λ text. text ≢ []) (seen texts.now) }
{
    texts.iter().any(|text| text.is_empty())
}

/// The names with these texts.
fn names_from(alloc: Global, texts: &[&str]) -> Result<Vec<Name>, AllocError>
    ensures { IfOk result (λ names. length names.items ≡ length texts.now) }
{
    let mut names = Vec::with_capacity(alloc, texts.len())?;
    for text in texts {
        names.push(Name::new(alloc, text)?)?;
    }
    Ok(names)
}
