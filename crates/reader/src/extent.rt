// How many entries a side has: 1 to 4,096.
ghost use Rattle.plans.specs.Conditions.{Side};

#[derive(Clone, Copy)]
pub(crate) struct Extent {
    pub(crate) entries: u32,
    ghost legal: { Side entries },
}
