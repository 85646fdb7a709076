// The same hourly amounts every day.
ghost use Rattle.readings.specs.Profiles.{Within};

mod methods;

// One point with an amount for each hour of the day, which every day has.
#[derive(Drop)]
pub struct Profile {
    point: usize,
    amounts: [u32; 24],
    ghost within: { Within amounts },
}
