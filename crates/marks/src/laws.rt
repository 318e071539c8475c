// Theorems over mark words, and over what is sent for them.
ghost use Rattle.marks.specs.Landing.{TrafficLands, SettingsLand};
ghost use Rattle.marks.specs.Marks.{RunsStart};

// A word has as many runs by their first bytes as by their last.
pub fn runs_by_starts() -> u8
    ensures { RunsStart }
{
    0
}

// What is sent for due bytes stores exactly those bytes.
pub fn traffic_lands() -> u8
    ensures { TrafficLands }
{
    0
}

// What is sent for a setting changes that register alone.
pub fn settings_land() -> u8
    ensures { SettingsLand }
{
    0
}
