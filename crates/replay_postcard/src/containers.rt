//! Types that have parts, each asked by a function of its parts.
// A generic call at a type carries the implementations of each of its parts, anew at each call. So
// what a container adds is carried once, by its function here. An array has none, since the size of
// one of any type isn't known.
use crate::messages::{Line, perform};
use postcard::{Deserialize, DeserializeOwned, Serialize};
use replay::{Findings, Shown, Trouble};
use std::collections::BTreeMap;

/// Asks a vector of a type.
pub(crate) fn perform_vec<'a, T: Serialize + Deserialize<&'a [u8]> + DeserializeOwned + Shown>(
    line: &mut Line<'a>,
    findings: &mut Findings,
) -> Result<(), Trouble> {
    perform::<Vec<T>>(line, findings)
}

/// Asks an option.
pub(crate) fn perform_option<'a, T: Serialize + Deserialize<&'a [u8]> + DeserializeOwned + Shown>(
    line: &mut Line<'a>,
    findings: &mut Findings,
) -> Result<(), Trouble> {
    perform::<Option<T>>(line, findings)
}

/// Asks a box.
pub(crate) fn perform_box<'a, T: Serialize + Deserialize<&'a [u8]> + DeserializeOwned + Shown>(
    line: &mut Line<'a>,
    findings: &mut Findings,
) -> Result<(), Trouble> {
    perform::<Box<T>>(line, findings)
}

/// Asks a result.
pub(crate) fn perform_result<
    'a,
    T: Serialize + Deserialize<&'a [u8]> + DeserializeOwned + Shown,
    E: Serialize + Deserialize<&'a [u8]> + DeserializeOwned + Shown,
>(line: &mut Line<'a>, findings: &mut Findings) -> Result<(), Trouble> {
    perform::<Result<T, E>>(line, findings)
}

/// Asks an option of results in a vector.
pub(crate) fn perform_results<
    'a,
    T: Serialize + Deserialize<&'a [u8]> + DeserializeOwned + Shown,
    E: Serialize + Deserialize<&'a [u8]> + DeserializeOwned + Shown,
>(line: &mut Line<'a>, findings: &mut Findings) -> Result<(), Trouble> {
    perform::<Option<Vec<Result<T, E>>>>(line, findings)
}

/// Asks a map.
pub(crate) fn perform_map<
    'a,
    K: Serialize + Deserialize<&'a [u8]> + DeserializeOwned + Shown + Ord,
    V: Serialize + Deserialize<&'a [u8]> + DeserializeOwned + Shown,
>(line: &mut Line<'a>, findings: &mut Findings) -> Result<(), Trouble> {
    perform::<BTreeMap<K, V>>(line, findings)
}

/// Asks a pair.
pub(crate) fn perform_pair<
    'a,
    A: Serialize + Deserialize<&'a [u8]> + DeserializeOwned + Shown,
    B: Serialize + Deserialize<&'a [u8]> + DeserializeOwned + Shown,
>(line: &mut Line<'a>, findings: &mut Findings) -> Result<(), Trouble> {
    perform::<(A, B)>(line, findings)
}

/// Asks a tuple of three.
pub(crate) fn perform_triple<
    'a,
    A: Serialize + Deserialize<&'a [u8]> + DeserializeOwned + Shown,
    B: Serialize + Deserialize<&'a [u8]> + DeserializeOwned + Shown,
    C: Serialize + Deserialize<&'a [u8]> + DeserializeOwned + Shown,
>(line: &mut Line<'a>, findings: &mut Findings) -> Result<(), Trouble> {
    perform::<(A, B, C)>(line, findings)
}
