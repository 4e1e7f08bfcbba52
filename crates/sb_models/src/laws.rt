//! The law of what is known of live assertions.

ghost use Rattle.sb_models.specs.Laws.{ModelsStay};

/// What is known of live assertions stays true from command to command: as terms keep their numbers and assertions
/// their places.
pub fn models_stay()
    ensures { ModelsStay }
{}
