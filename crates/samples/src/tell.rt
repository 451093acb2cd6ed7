//! Lines of values, each printed by one function for all types.

use crate::fault::Failed;
use std::fmt::{Debug, Display};

/// A line of a text, a value and a text.
pub fn tell<A: Display>(rt: &impl Print, front: &str, a: &A, back: &str) -> Result<(), Failed> {
    println!(rt; "{front}{a}{back}")?;
    Ok(())
}

/// A line of two values as code writes them, and what stands between them.
pub fn tell_both<A: Debug, B: Debug>(
    rt: &impl Print,
    a: &A,
    between: &str,
    b: &B,
) -> Result<(), Failed> {
    println!(rt; "{a:?}{between}{b:?}")?;
    Ok(())
}
