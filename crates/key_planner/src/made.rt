use topology::Stages;

/// The stages of a query, inputs first.
#[derive(Debug, Drop)]
pub struct Keyed {
    pub stages: Stages,
}
