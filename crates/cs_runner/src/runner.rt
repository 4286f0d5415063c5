//! A run in progress.

use cs_objects::Setting;
use cs_run_log::Log;
use cs_run_state::machine::Machine;

/// A run in progress: its state, its log, and its setting.
#[derive(Drop)]
pub struct Runner<'a> {
    pub machine: Machine<'a>,
    pub log: Log,
    pub setting: &'a Setting<'a>,
}
