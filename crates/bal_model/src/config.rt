ghost use Rattle.std.specs.Prelude.{◌≡◌};

use bal_layout::Geometry;

/// How a heap is made and when it collects.
#[derive(Clone, Copy)]
pub struct Config {
    pub geometry: Geometry,
    /// How many regions may be eden before an allocation collects.
    pub eden: u32,
    /// How many older regions a partial collection may choose besides.
    pub older: u32,
    /// How many cards a region's remembered list holds before it overflows.
    pub cards: u32,
    pub workers: u32,
    /// A mark cycle begins after so many partial collections.
    pub mark_every: u32,
    /// How many names a mark step lists.
    pub mark_step: u32,
    /// How many objects a worker copies before it wishes to abandon the evacuation.
    pub abort_after: Option<u64>,
}

impl Config {
    ghost use Rattle.bal_model.specs.Configs.{without_options};

    /// The configuration of a command line without options.
    pub fn without_options() -> Config
        ensures { result ≡ without_options }
    {
        let Ok(geometry) = Geometry::new(64, 1024) else {
            unreachable!()
        };
        Config {
            geometry,
            eden: 8,
            older: 2,
            cards: 64,
            workers: 4,
            mark_every: 4,
            mark_step: 256,
            abort_after: None,
        }
    }
}
