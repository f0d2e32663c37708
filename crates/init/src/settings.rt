// What a host is made with.
use types::clock::Hertz;
use types::config::Config;

// The source clock, the limits, and whether four data lines are connected.
#[derive(Clone, Copy)]
pub struct Settings {
    pub source: Hertz,
    pub config: Config,
    pub wide: bool,
}
