// The settings, their limits and the house settings.
ghost use Rattle.std.specs.Prelude.{◌≡◌};
ghost use Rattle.strings.specs.SettingLimits.{between, anchor_limits, hash_limits, factor_limits, key_limits, house_settings, within_limits};

// 01, "Strings and settings": anchor m, hash h, window factor k, key, ceiling.
#[derive(Clone, Copy, Debug, PartialEq, Eq)]
pub struct Settings {
    pub m: u32,
    pub h: u32,
    pub k: u32,
    pub key: u32,
    pub ceiling: u32,
}

impl Settings {
    // The house settings.
    pub const HOUSE_M: u32 = 16;

    pub const HOUSE_H: u32 = 16;

    pub const HOUSE_K: u32 = 2;

    pub const HOUSE_KEY: u32 = 1;

    pub const HOUSE_CEILING: u32 = 4096;

    pub fn house() -> Settings
        ensures { result ≡ house_settings }
    {
        Settings {
            m: Settings::HOUSE_M,
            h: Settings::HOUSE_H,
            k: Settings::HOUSE_K,
            key: Settings::HOUSE_KEY,
            ceiling: Settings::HOUSE_CEILING,
        }
    }

    pub fn new(m: u32, h: u32, k: u32, key: u32, ceiling: u32) -> Settings
        ensures { result ≡ record { m = m; h = h; k = k; key = key; ceiling = ceiling } }
    {
        Settings {
            m,
            h,
            k,
            key,
            ceiling,
        }
    }

    // Whether each is within its limits.
    #[tactic(auto, unfolding(crate::specs::SettingLimits::within_limits))]
    pub fn is_within_limits(self) -> bool
        ensures { result ≡ within_limits self }
    {
        is_anchor_length(self.m)
            && is_hash_width(self.h)
            && is_window_factor(self.k)
            && is_key(self.key)
            && self.ceiling <= 16384
    }
}

// Whether v is lo to hi.
pub fn is_between(lo: u32, v: u32, hi: u32) -> bool
    ensures { result ≡ between lo v hi }
{
    lo <= v && v <= hi
}

// Whether m is within its limits.
pub fn is_anchor_length(m: u32) -> bool
    ensures { result ≡ anchor_limits m }
{
    is_between(8, m, 64)
}

// Whether h is within its limits.
pub fn is_hash_width(h: u32) -> bool
    ensures { result ≡ hash_limits h }
{
    is_between(8, h, 32)
}

// Whether k is within its limits.
pub fn is_window_factor(k: u32) -> bool
    ensures { result ≡ factor_limits k }
{
    is_between(1, k, 8)
}

// Whether the key is within its limits.
pub fn is_key(key: u32) -> bool
    ensures { result ≡ key_limits key }
{
    is_between(1, key, 4294967295)
}
