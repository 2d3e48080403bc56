//! The claims of a hold.

ghost use Rattle.std.specs.Prelude.{◌≡◌, ◌∷◌, [], length, IfOk};

use crate::{Claim, List};
use no_memory::NoMemory;
use std::alloc::Global;
use std::marker::Model;
use std::slice;

/// Claims, which contracts see as their list. One claim, as most holds have, takes no memory of its
/// own.
#[derive(Debug, Drop)]
pub struct Claims {
    // The claim of `one`, and none where the claims came in one list.
    alone: Option<Claim>,
    rest: List<Claim>,
}

impl Model for Claims {
    ghost use Rattle.std.specs.Prelude.{◌≡◌, ◌⊎◌, ◌++◌, [], None, List as list_of};
    ghost use Rattle.std.specs.Option.{option_to_list};
    ghost use Rattle.rail_types.specs.declared.paths.Claim.{Claim as claim_type};

    ghost Value = { list_of claim_type };

    ghost view = { λ a. option_to_list a.alone ++ a.rest };

    ghost invariant = { λ a. (a.rest ≡ []) ⊎ (a.alone ≡ None) };
}

impl Claims {
    /// One claim.
    pub fn one(alloc: Global, claim: Claim) -> Claims
        ensures { result ≡ claim ∷ [] }
    {
        Claims {
            alone: Some(claim),
            rest: List::new(alloc),
        }
    }

    /// The claims of a list.
    pub fn from_list(claims: List<Claim>) -> Claims
        ensures { result ≡ claims }
    {
        Claims {
            alone: None,
            rest: claims,
        }
    }

    /// The claims as a slice.
    pub fn as_slice(&self) -> &[Claim]
        ensures { result.now ≡ self.now }
    {
        match &self.alone {
            Some(claim) => slice::from_ref(claim),
            None => self.rest.as_slice(),
        }
    }

    /// How many claims there are.
    pub fn len(&self) -> usize
        ensures { result ≡ length self.now }
    {
        self.as_slice().len()
    }

    /// An equal list of its own.
    pub fn copy(&self, alloc: Global) -> Result<Claims, NoMemory>
        ensures { IfOk result (λ other. other ≡ self.now) }
    {
        Ok(Claims {
            alone: self.alone,
            rest: self.rest.copy(alloc)?,
        })
    }
}
