// A row.
ghost use Rattle.std.specs.Prelude.{◌≡◌, IfOk, option_copied};

use arti_rows::{Digests, Property, Seq};
use std::alloc::{AllocError, Global};

/// What stands for an id: its properties, and the digests of its content where it has one.
#[derive(Drop)]
pub struct Row {
    pub pairs: Seq<Property>,
    pub digests: Option<Digests>,
}

impl Row {
    /// A copy of these.
    pub(crate) fn new(
        alloc: Global,
        pairs: &[Property],
        digests: Option<&Digests>,
    ) -> Result<Row, AllocError>
        ensures pairs { IfOk result (λ row. row.pairs ≡ pairs.now) }
        ensures digests { IfOk result (λ row. row.digests ≡ option_copied digests.entry) }
    {
        Ok(Row {
            pairs: Seq::from_vec(copies(alloc, pairs)?),
            digests: digests.copied(),
        })
    }
}

fn copies(alloc: Global, pairs: &[Property]) -> Result<Vec<Property>, AllocError>
    ensures { IfOk result (λ v. v.items ≡ pairs.now) }
{
    let mut copies = Vec::with_capacity(alloc, pairs.len())?;
    for pair in pairs {
        copies.push(pair.clone()?)?;
    }
    Ok(copies)
}
