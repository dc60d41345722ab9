// A network that passes question 17, as a call is lent it: its script, the words of its components, and how many components are in use.
ghost use Rattle.std.specs.Prelude.{◌≡◌, true};
ghost use Rattle.table.specs.Valid.{valid};

use super::{Script, Words};

#[derive(Clone, Copy)]
pub struct Network<'a> {
    pub script: &'a Script,
    pub words: &'a Words,
    pub n: usize,
    pub ghost passes: { valid script.now (record { c = words.now; n = n }) ≡ true },
}
