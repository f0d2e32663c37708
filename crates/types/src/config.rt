// The settings of a host.
ghost use Rattle.std.specs.Prelude.{◌≡◌};
ghost use Rattle.types.specs.Settings.{defaults, made_of};

use crate::clock::Hertz;
use crate::error::Error;

#[derive(Clone, Copy)]
pub struct Config {
    pub data_transfer_timeout: u32,
    pub software_timeout_ms: u32,
    pub poll_limit: u32,
    pub card_ready_attempts: u16,
    // Bypass needs the controller's flow control, so it is off unless asked for.
    pub allow_clock_bypass: bool,
}

impl Config {
    pub const DATA_TRANSFER_TIMEOUT: u32 = 5_000_000;

    pub const SOFTWARE_TIMEOUT_MS: u32 = 1_000;

    pub const POLL_LIMIT: u32 = 1_000_000;

    pub const CARD_READY_ATTEMPTS: u16 = 1_000;
    // The sources that identification's 400,000 Hz can be made of: a source of 1 Hz would be a clock of 0 Hz.
    pub const LEAST_SOURCE: u32 = 2;

    pub const MOST_SOURCE: u32 = 102_800_000;

    // Whether a host can be made of this source and these settings, or why not.
    #[tactic(auto, using(std::proofs::lemmas::Bool::Decides::nat_tests), unfolding(crate::specs::Settings::made_of))]
    pub fn judge(self, source: Hertz) -> Result<(), Error>
        ensures { result ≡ made_of source.0 self }
    {
        let hertz = source.0;
        if self.poll_limit == 0
            || self.card_ready_attempts == 0
            || self.data_transfer_timeout == 0
            || self.software_timeout_ms == 0
        {
            return Err(Error::InvalidConfig);
        }
        if hertz < Config::LEAST_SOURCE || hertz > Config::MOST_SOURCE {
            return Err(Error::BadClock);
        }
        Ok(())
    }
}

impl Default for Config {
    fn default() -> Config
        ensures { result ≡ defaults }
    {
        Config {
            data_transfer_timeout: Config::DATA_TRANSFER_TIMEOUT,
            software_timeout_ms: Config::SOFTWARE_TIMEOUT_MS,
            poll_limit: Config::POLL_LIMIT,
            card_ready_attempts: Config::CARD_READY_ATTEMPTS,
            allow_clock_bypass: false,
        }
    }
}
