//! Things by name.

ghost use Rattle.std.specs.Prelude.{◌≡◌, false, Some, None, OnErr, OnOk, is_some};
ghost use Rattle.std.specs.BTreeMap.{get_by_text};
ghost use Rattle.session.specs.Maps.{put};

use std::alloc::{AllocError, Global};
use std::collections::BTreeMap;

/// Returns whether something has the name.
pub fn is_held<V>(name: &str, map: &BTreeMap<String, V>) -> bool
    ensures { result ≡ is_some (get_by_text map.now name.now) }
{
    map.contains_key(name)
}

/// Gives a value a name.
pub fn hold<V: Drop>(
    alloc: Global,
    name: &str,
    value: V,
    map: &mut BTreeMap<String, V>,
) -> Result<(), AllocError>
    ensures held { OnOk result
        (get_by_text map.new ≡ put name.now (Some value) (get_by_text map.old)) }
    ensures failed { OnErr result (get_by_text map.new ≡ get_by_text map.old) }
{
    let key = String::from_str(alloc, name)?;
    map.insert(key, value)?;
    Ok(())
}

/// Removes a name and what it names. Returns whether something had the name.
pub fn let_go<V: Drop>(name: &str, map: &mut BTreeMap<String, V>) -> bool
    ensures found { result ≡ is_some (get_by_text map.old name.now) }
    ensures gone { get_by_text map.new ≡ put name.now None (get_by_text map.old) }
    ensures same { result ≡ false → get_by_text map.new ≡ get_by_text map.old }
{
    map.remove(name).is_some()
}
