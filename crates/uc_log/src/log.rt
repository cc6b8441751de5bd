//! The part of a log that its workers share.
ghost use Rattle.std.specs.Prelude.{◌≡◌};
ghost use Rattle.mc_model.specs.Settings.{IsLawful};

use mc_model::Settings;
use uc_cells::Cells;
use uc_places::Places;

/// A log of set-once places: a cell for each ticket, and the words by which the workers decide
/// which ticket stands at which place.
#[derive(Drop)]
pub struct Log {
    pub(crate) settings: Settings,
    pub(crate) cells: Cells,
    pub(crate) places: Places,
    ghost sized: { (cells.workers ≡ settings.workers) × (cells.places ≡ settings.places) },
    ghost lawful: { IsLawful settings },
}

impl Log {
    /// Returns the settings with which the log was opened.
    pub fn settings(&self) -> &Settings
        ensures { result.now ≡ self.now.settings }
    {
        &self.settings
    }
}
