ghost use Rattle.ip_core.specs.Models.{IsModel};
ghost use Rattle.ip_core.specs.Sides.{IsPaired};

use ip_core::Model;
use node_pool::SearchSettings;

/// The search of a model with bounds, and what it may do beside that.
#[derive(Debug, Drop)]
pub struct Search {
    model: Model,
    settings: SearchSettings,
    pub ghost valid: { IsModel model },
    pub ghost paired: { IsPaired model.root },
}

impl Search {
    ghost use Rattle.std.specs.Prelude.{◌≡◌};

    /// The search of a model by splits, with cuts and dives where the settings have them. It takes
    /// no memory.
    pub fn new(model: Model, settings: SearchSettings) -> Search
        ensures model { result.model ≡ model }
        ensures settings { result.settings ≡ settings }
    {
        let _parts = model.parts();
        let _lows = model.root().lows();
        Search { model, settings }
    }

    /// The model that is searched. It takes no memory.
    pub fn model(&self) -> &Model
        ensures { result.now ≡ self.now.model }
    {
        &self.model
    }

    /// What the search may do beside splitting boxes.
    pub fn settings(&self) -> SearchSettings
        ensures { result ≡ self.now.settings }
    {
        self.settings
    }
}
