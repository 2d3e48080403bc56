//! Requests that stand apart from what holds them.

ghost use Rattle.std.specs.Prelude.{◌≡◌, IfOk};

use crate::Request;
use no_memory::NoMemory;
use std::alloc::Global;
use std::marker::Model;

/// A request that stands apart, so that an entry without one has no room for it. Contracts see the
/// request.
#[derive(Debug, Drop)]
pub struct KeptRequest {
    request: Box<Request>,
}

impl Model for KeptRequest {
    ghost use Rattle.rail_types.specs.declared.trains.Request.{Request as request_type};

    ghost Value = { request_type };

    ghost view = { λ a. a.request.value };
}

impl KeptRequest {
    /// The request, kept apart.
    pub fn new(alloc: Global, request: Request) -> Result<KeptRequest, NoMemory>
        ensures { IfOk result (λ kept. kept ≡ request) }
    {
        Ok(KeptRequest {
            request: Box::new(alloc, request)?,
        })
    }

    /// An equal request, kept apart.
    pub fn copy_of(alloc: Global, request: &Request) -> Result<KeptRequest, NoMemory>
        ensures { IfOk result (λ kept. kept ≡ request.now) }
    {
        KeptRequest::new(alloc, request.copy(alloc)?)
    }

    /// The request.
    pub fn get(&self) -> &Request
        ensures { result.now ≡ self.now }
    {
        &self.request
    }

    /// An equal one of its own.
    pub fn copy(&self, alloc: Global) -> Result<KeptRequest, NoMemory>
        ensures { IfOk result (λ other. other ≡ self.now) }
    {
        KeptRequest::copy_of(alloc, self.get())
    }
}
