//! A head that is read.

ghost use Rattle.std.specs.Prelude.{◌≡◌, Some, IfOk, IfErr, IfSome, IsTrue, MatchResult};
ghost use Rattle.flu_names.specs.Names.{is_name};
ghost use Rattle.serde_json.specs.View.{view};
ghost use Rattle.flu_partial.specs.declared.fault.LineFault.{LineFault};
ghost use Rattle.flu_partial.specs.declared.values.PartialHead.{PartialHead};
ghost use Rattle.flu_partial.specs.Partial.{IsHead, IsTimeOrNone};
ghost use Rattle.flu_partial.specs.Forms.{IsFaultOf, IsHeadLine, IsJsonOf, IsShort};
ghost use Rattle.flu_partial.specs.Having.{HasHead};
ghost use Rattle.flu_partial.specs.Parts.{AreHeadParts};

use crate::fault::LineFault;
use crate::members::{MOST_BYTES, is_text, name_of, text_in, text_of, time_of, value_of};
use crate::printing::head_string;
use crate::values::PartialHead;
use flu_names::is_name;
use serde_json::Value;
use std::alloc::{AllocError, Global};

// The four members of a head.
#[derive(Clone, Copy)]
struct HeadParts<'v> {
    first: Option<u64>,
    job: &'v str,
    node: &'v str,
    plan: &'v str,
}

// The members of a value, if it has those of a head. That it has no more is found where the texts are compared.
fn parts_of(value: &Value) -> Option<HeadParts<'_>>
    ensures fits { IfSome result (λ r. IsTimeOrNone r.first × IsTrue (is_name r.node.now)) }
    ensures found { (h : PartialHead) → IsHead h → HasHead (view value.now) h → AreHeadParts result h }
{
    let first = time_of(value, "first")?;
    let job = text_in(value, "job")?;
    let node = text_in(value, "node")?;
    let plan = text_in(value, "plan")?;
    if is_name(node) {
        Some(HeadParts {
            first,
            job,
            node,
            plan,
        })
    } else {
        None
    }
}

// The head that a value is; none where it lacks a member.
fn head_in(alloc: Global, value: &Value) -> Result<Option<PartialHead>, AllocError>
    ensures fits { IfOk result (λ o. IfSome o IsHead) }
    ensures found { (h : PartialHead) → IsHead h → HasHead (view value.now) h → IfOk result (λ o. o ≡ Some h) }
{
    let Some(parts) = parts_of(value) else {
        return Ok(None);
    };
    let job = text_of(alloc, parts.job)?;
    let node = name_of(alloc, parts.node)?;
    let plan = text_of(alloc, parts.plan)?;
    Ok(Some(PartialHead {
        first: parts.first,
        job,
        node,
        plan,
    }))
}

// The head whose line the bytes are, by their JSON value.
fn head_of(alloc: Global, value: &Value, bytes: &[u8]) -> Result<Option<PartialHead>, AllocError>
    requires short { IsShort bytes.now }
    requires json { IsJsonOf bytes.now (view value.now) }
    ensures line { IfOk result (λ o. IfSome o (λ h. IsHeadLine h bytes.now)) }
    ensures found { (h : PartialHead) → IsHeadLine h bytes.now → IfOk result (λ o. o ≡ Some h) }
{
    let Some(head) = head_in(alloc, value)? else {
        return Ok(None);
    };
    let text = head_string(alloc, &head)?;
    if is_text(&text, bytes) {
        Ok(Some(head))
    } else {
        Ok(None)
    }
}

/// The head that a line is, without its line feed. Only the text of the head itself is its line: no other order of members, and no blanks.
///
/// # Errors
///
/// The first of those of `LineFault` that applies, in their order; and `NoMemory` if memory runs out.
pub fn read_head(alloc: Global, bytes: &[u8]) -> Result<PartialHead, LineFault>
    ensures head { IfOk result (λ h. IsHeadLine h bytes.now) }
    ensures fault { IfErr result (IsFaultOf IsHeadLine bytes.now) }
    ensures found { (h : PartialHead) → IsHeadLine h bytes.now → MatchResult result (λ r. r ≡ h) (λ e. e ≡ LineFault.NoMemory) }
{
    if bytes.len() > MOST_BYTES {
        return Err(LineFault::OverLimit {
            count: MOST_BYTES as u64 + 1,
        });
    }
    let value = value_of(alloc, bytes)?;
    head_of(alloc, &value, bytes)?.ok_or(LineFault::WrongForm)
}
