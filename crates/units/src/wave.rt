// The wave command: which waves are driven.
ghost use Rattle.std.specs.Prelude.{◌≡◌, eqb};
ghost use Rattle.units.specs.Wave.{driven, five_percent, driven_in};

// The wave command is driven in every post: 100 to 960.
#[tactic(auto, unfolding(crate::specs::Wave::driven, crate::specs::Range::from_to))]
pub fn driven(wave: u32) -> bool
    ensures { result ≡ driven wave }
{
    (100..=960).contains(&wave)
}

// 5 %, which a digital post drives.
pub fn is_five_percent(wave: u32) -> bool
    ensures { result ≡ eqb wave five_percent }
{
    wave == 50
}

// The wave command is driven, by the post's mark.
#[tactic(auto, unfolding(crate::specs::Wave::driven_in, crate::specs::Wave::driven, crate::specs::Range::from_to))]
pub fn driven_in(digital: bool, wave: u32) -> bool
    ensures { result ≡ driven_in digital wave }
{
    digital && is_five_percent(wave) || driven(wave)
}
