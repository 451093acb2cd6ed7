ghost use Rattle.std.specs.Prelude.{◌≡◌, ◌++◌, OnOk, IfOk};
ghost use Rattle.query_core.specs.View.{tree};
ghost use Rattle.sql_print.specs.Sql.{is_joined, in_parentheses, join_source};

use crate::part::Printed;
use crate::predicate::push_pred;
use crate::push::push_bytes;
use predicate_core::Pred;
use query_core::Node;
use sqlite_items::Items;
use std::alloc::Global;
use value_core::{Bytes, OutOfMemory, Value};

// Whether a node is a join or a left join.
pub fn is_joined(node: &Node) -> bool
    ensures { result ≡ is_joined (tree node.now) }
{
    matches!(node, Node::Join(..) | Node::Left(..))
}

// Appends a text, in parentheses where it has to be.
fn push_nested(out: &mut Vec<u8>, nested: bool, text: &[u8]) -> Result<(), OutOfMemory>
    ensures { OnOk result (out.new.items ≡ out.old.items ++ in_parentheses nested text.now) }
{
    if nested {
        push_bytes(out, b"(")?;
        push_bytes(out, text)?;
        push_bytes(out, b")")
    } else {
        push_bytes(out, text)
    }
}

// A copy of these texts.
fn push_copies(alloc: Global, out: &mut Items<Bytes>, texts: &[Bytes]) -> Result<(), OutOfMemory>
    ensures { OnOk result (out.new ≡ out.old ++ texts.now) }
{
    for text in texts {
        out.push(Bytes::of(alloc, text.as_slice())?)?;
    }
    Ok(())
}

// The columns of two sources.
fn both_columns(alloc: Global, left: &[Bytes], right: &[Bytes]) -> Result<Items<Bytes>, OutOfMemory>
    ensures { IfOk result (λ columns. columns ≡ left.now ++ right.now) }
{
    let mut columns = Items::new(alloc);
    push_copies(alloc, &mut columns, left)?;
    push_copies(alloc, &mut columns, right)?;
    Ok(columns)
}

// Two sources joined by these words, with a predicate over the columns of both.
pub fn join_source(
    alloc: Global,
    constants: &[Value],
    words: &[u8],
    nested: bool,
    pred: &Pred,
    left: &Printed,
    right: &Printed,
) -> Result<Printed, OutOfMemory>
    ensures { IfOk result (λ source. source ≡ join_source constants.now words.now nested pred.now left.now right.now) }
{
    let columns = both_columns(alloc, left.columns.as_slice(), right.columns.as_slice())?;
    let mut out = Vec::new(alloc);
    push_bytes(&mut out, left.text.as_slice())?;
    push_bytes(&mut out, words)?;
    push_nested(&mut out, nested, right.text.as_slice())?;
    push_bytes(&mut out, b" ON ")?;
    push_pred(alloc, &mut out, constants, columns.as_slice(), pred)?;
    Ok(Printed {
        text: Bytes::from_vec(out),
        columns,
        next: right.next,
    })
}
