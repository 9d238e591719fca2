//! Requests by client and number.

ghost use Rattle.std.specs.Prelude.{◌≡◌, ◌++◌, ◌∷◌, [], IfOk};
ghost use Rattle.verdicts.specs.RequestIndex.{IsFound, IsIndexed, IsOccurrence};

use sessions::Request;
use std::alloc::{AllocError, Global};
use std::collections::BTreeMap;

/// Where a request stands, and whether another of the same client and number has another operation.
#[derive(Clone, Copy)]
pub(crate) struct Occurrence {
    pub first: usize,
    pub is_ambiguous: bool,
}

/// The requests by client and number.
pub(crate) fn index_requests(
    alloc: Global,
    requests: &[Request],
) -> Result<BTreeMap<(u8, u64), Occurrence>, AllocError>
    ensures { IfOk result (λ index. IsIndexed requests.now index) }
{
    let mut index = BTreeMap::new(alloc);
    for (at, request) in requests.iter().enumerate() {
        let key = (request.client(), request.number().value());
        let found = index.get(&key).copied();
        let occurrence = with_request(&requests[..at], request, found);
        index.insert(key, occurrence)?;
    }
    Ok(index)
}

/// What is known of a request's client and number, by what was known of them before it.
fn with_request(before: &[Request], request: &Request, found: Option<Occurrence>) -> Occurrence
    requires { IsFound before.now request.now.client request.now.number found }
    ensures { IsOccurrence (before.now ++ request.now ∷ []) request.now.client request.now.number result }
{
    match found {
        None => Occurrence {
            first: before.len(),
            is_ambiguous: false,
        },
        Some(earlier) => Occurrence {
            first: earlier.first,
            is_ambiguous: earlier.is_ambiguous || before[earlier.first] != *request,
        },
    }
}
