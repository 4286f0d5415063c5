//! The options of the commands.
ghost use Rattle.std.specs.Prelude.{◌≡◌, ◌≢◌, MatchOption};
ghost use Rattle.cs_words.specs.Options as options;
ghost use Rattle.cs_words.specs.Options.{setting_text};

/// An option of a command.
#[derive(Clone, Copy, PartialEq, Eq, Debug)]
pub enum OptionName {
    /// How often a frame may reach the same loop head or label.
    Visits,
    /// How many frames there may be at the same time.
    Depth,
    /// How many events a run may pass.
    Events,
    /// How many nodes the exploded graph may have.
    Nodes,
    /// How many offsets of one access are followed.
    Splits,
    /// Which kinds of faults are printed.
    Kinds,
    /// The function that is analyzed.
    Entry,
    /// The output format.
    Format,
    /// The sizes of `long` and of pointers.
    Model,
}

/// Returns the option with this name, if there is one.
pub fn option_named(name: &[u8]) -> Option<OptionName>
    ensures { MatchOption result ((setting : options.OptionName)
        → setting_text setting ≢ name.now) (λ setting. setting_text setting ≡ name.now) }
{
    match name {
        b"visits" => Some(OptionName::Visits),
        b"depth" => Some(OptionName::Depth),
        b"events" => Some(OptionName::Events),
        b"nodes" => Some(OptionName::Nodes),
        b"splits" => Some(OptionName::Splits),
        b"kinds" => Some(OptionName::Kinds),
        b"entry" => Some(OptionName::Entry),
        b"format" => Some(OptionName::Format),
        b"model" => Some(OptionName::Model),
        _ => None,
    }
}
