// The order in which `nm` lists symbols.
ghost use Rattle.std.specs.Prelude.{◌≡◌};
ghost use Rattle.glk_words.specs.CommandLine.{settings_of};
ghost use Rattle.glk_words.specs.SymbolOrders.{order_by as order_of_setting, symbol_order as order_of_settings};

use crate::command_line::Invocation;
use crate::commands::Flag;
use crate::values::{SymbolOrder, order_named, truth};

// The order that a flag with this value asks for, if it asks for one.
fn order_by(flag: Flag, value: &str) -> Option<SymbolOrder>
    ensures { result ≡ order_of_setting flag value.now }
{
    match flag {
        Flag::ByAddress => match truth(value) {
            Some(true) => Some(SymbolOrder::Address),
            _ => None,
        },
        Flag::Sort => order_named(value),
        _ => None,
    }
}

impl<'a> Invocation<'a> {
    /// The order in which symbols are listed: that of the last setting that asks for one, else by
    /// name.
    pub fn symbol_order(&self) -> SymbolOrder
        ensures { result ≡ order_of_settings (settings_of self.now) }
    {
        let mut order = SymbolOrder::Name;
        for setting in &self.settings {
            order = order_by(setting.flag, setting.value).unwrap_or(order);
        }
        order
    }
}
