//! What commands go by beside the map.

ghost use Rattle.std.specs.Prelude.{◌≡◌, false, []};
ghost use Rattle.cmd_text.specs.Kept.{IsNameText};
ghost use Rattle.tree_ops.specs.Material.{IsMaterial};

use fixed_num::Text;
use std::alloc::Global;
use std::marker::Model;

/// The settings: whether textures are locked to faces that are moved, and the current material, which is empty at the
/// start and else a name.
#[derive(Drop)]
pub struct Settings {
    lock: bool,
    material: Text,
}

impl Model for Settings {
    ghost use Rattle.map_model.specs.Commands as words;
    ghost use Rattle.tree_ops.specs.Material.{IsMaterial};

    ghost Value = { words.Settings };

    ghost view = { λ s. record { lock = s.lock; material = s.material } };

    ghost invariant = { λ s. IsMaterial s.material };
}

impl Settings {
    /// The settings at the start. It takes no memory.
    pub fn new(alloc: Global) -> Settings
        ensures { result ≡ record { lock = false; material = [] } }
    {
        Settings {
            lock: false,
            material: Text::empty(alloc),
        }
    }

    /// Whether textures are locked to faces that are moved.
    pub fn lock(&self) -> bool
        ensures { result ≡ self.now.lock }
    {
        self.lock
    }

    /// The current material, empty at the start.
    pub fn material(&self) -> &[u8]
        ensures { result.now ≡ self.now.material }
    {
        self.material.bytes()
    }

    /// The current material is empty, or a name.
    pub fn has_material(&self)
        ensures { IsMaterial self.now.material }
    {
        let _material = &self.material;
    }

    /// Locks textures to faces that are moved, or doesn't. It takes no memory.
    pub fn set_lock(&mut self, on: bool)
        ensures { self.new ≡ record self.old { lock = on } }
    {
        self.lock = on;
    }

    /// Gives another current material. It takes no memory.
    pub fn set_material(&mut self, name: Text)
        requires { IsNameText name }
        ensures { self.new ≡ record self.old { material = name } }
    {
        self.material = name;
    }
}
