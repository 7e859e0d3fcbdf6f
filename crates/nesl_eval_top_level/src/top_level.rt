//! The top level as evaluation sees it in the allocator of its bindings.
use crate::env::TopLevel;
use nesl_eval_nodes::held::{Held, Tops};
use std::alloc::{AllocError, Global};

impl Tops<Global> for TopLevel<'_> {
    ghost use Rattle.nesl_eval_top_level.specs.TopLevels.{table_in};

    ghost table = { table_in };

    fn held(&self, place: usize) -> Result<Held<'_, Global>, AllocError> {
        Ok(TopLevel::held(self, place))
    }

    #[tactic(auto, using(crate::proofs::Lent::place_named))]
    fn place_of(&self, name: &[u8]) -> Option<usize> {
        TopLevel::place_of(self, name)
    }
}
