//! What the types of a component's values say of them.
ghost use Rattle.std.specs.Prelude.{◌≤◌, All};
ghost use Rattle.topology_file.specs.Typed.{IsTypedConfig, IsTyped};

use crate::component::Component;
use crate::config::Config;

fn is_word(number: u32)
    ensures { number ≤ 4294967295 }
{}

fn is_typed_config(config: &Config)
    ensures { IsTypedConfig config.now }
{
    match config {
        Config::Beacon(config) => {
            config.to.bytes();
            config.from.bytes();
        }
        Config::Nic(config) => {
            config.mac.bytes();
        }
        Config::Host(config) => is_word(config.hart),
        Config::Switch(_) | Config::Memory(_) => {}
    }
}

fn is_typed(component: &Component)
    ensures { IsTyped component.now }
{
    component.name.as_slice();
    is_typed_config(&component.config);
}

/// Each component's values are what their types say.
pub(crate) fn are_typed(components: &[Component])
    ensures { All IsTyped components.now }
{
    for component in components {
        is_typed(component);
    }
}
