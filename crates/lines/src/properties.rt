//! The properties of a paragraph's characters.
ghost use Rattle.std.specs.Prelude.{◌≡◌, ◌≤◌, length, map, take, OnOk};
ghost use Rattle.ucd.specs.Properties.{properties_of};

use crate::reserve::grow;
use std::alloc::AllocError;
use ucd::{Properties, Tables};

/// Writes the properties of each character of `text` to the front of `properties`. The list never becomes
/// shorter, so that its end need not be filled again for a longer text.
pub(crate) fn fill_properties(
    tables: &Tables,
    text: &[char],
    properties: &mut Vec<Properties>,
) -> Result<(), AllocError>
    ensures properties { OnOk result
        (take (length text.now) properties.new.items ≡ map (properties_of tables.now) text.now) }
    ensures len { OnOk result (length text.now ≤ length properties.new.items) }
{
    grow(properties, text.len(), tables.properties('\0'))?;
    look_up_front(tables, text, properties);
    Ok(())
}

// Overwrites the front of `properties` with the properties of each character.
fn look_up_front(tables: &Tables, text: &[char], properties: &mut [Properties])
    requires { length text.now ≤ length properties.old }
    ensures { take (length text.now) properties.new ≡ map (properties_of tables.now) text.now }
{
    tables.look_up(text, &mut properties[..text.len()]);
}
