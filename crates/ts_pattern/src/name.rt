//! The names that a term is made of: its pattern, feature and aggregator.

ghost use Rattle.std.specs.Prelude.{◌≡◌, ◌↔◌};
ghost use Rattle.std.specs.List.{find};
ghost use Rattle.std.specs.Str.{bytes_eq};
ghost use Rattle.ts_pattern.specs.Names.{all_patterns, pattern_name, feature_name, aggregator_name};

/// The 22 patterns.
#[derive(Clone, Copy, Debug, PartialEq, Eq)]
pub enum PatternId {
    Increasing,
    Decreasing,
    Steady,
    IncreasingSequence,
    DecreasingSequence,
    StrictlyIncreasingSequence,
    StrictlyDecreasingSequence,
    SteadySequence,
    IncreasingTerrace,
    DecreasingTerrace,
    Inflexion,
    Peak,
    Valley,
    Plateau,
    Plain,
    ProperPlateau,
    ProperPlain,
    Summit,
    Gorge,
    Zigzag,
    DipOnIncreasingSequence,
    BumpOnDecreasingSequence,
}

/// What an occurrence is worth: 1, the number of its cells, the sum, greatest or least of their values, or the greatest
/// less the least.
#[derive(Clone, Copy, Debug, PartialEq, Eq)]
pub enum Feature {
    One,
    Width,
    Surf,
    Max,
    Min,
    Range,
}

/// How the features of all occurrences make one value.
#[derive(Clone, Copy, Debug, PartialEq, Eq)]
pub enum Aggregator {
    Sum,
    Max,
    Min,
}

impl PatternId {
    /// The patterns in their order.
    pub const ALL: [PatternId; 22] = [
        PatternId::Increasing,
        PatternId::Decreasing,
        PatternId::Steady,
        PatternId::IncreasingSequence,
        PatternId::DecreasingSequence,
        PatternId::StrictlyIncreasingSequence,
        PatternId::StrictlyDecreasingSequence,
        PatternId::SteadySequence,
        PatternId::IncreasingTerrace,
        PatternId::DecreasingTerrace,
        PatternId::Inflexion,
        PatternId::Peak,
        PatternId::Valley,
        PatternId::Plateau,
        PatternId::Plain,
        PatternId::ProperPlateau,
        PatternId::ProperPlain,
        PatternId::Summit,
        PatternId::Gorge,
        PatternId::Zigzag,
        PatternId::DipOnIncreasingSequence,
        PatternId::BumpOnDecreasingSequence,
    ];
}

/// The name of a pattern, as it stands in a text.
pub fn pattern_name(id: PatternId) -> &'static [u8]
    ensures { result.now ≡ pattern_name id }
{
    match id {
        PatternId::Increasing => b"increasing",
        PatternId::Decreasing => b"decreasing",
        PatternId::Steady => b"steady",
        PatternId::IncreasingSequence => b"increasing_sequence",
        PatternId::DecreasingSequence => b"decreasing_sequence",
        PatternId::StrictlyIncreasingSequence => b"strictly_increasing_sequence",
        PatternId::StrictlyDecreasingSequence => b"strictly_decreasing_sequence",
        PatternId::SteadySequence => b"steady_sequence",
        PatternId::IncreasingTerrace => b"increasing_terrace",
        PatternId::DecreasingTerrace => b"decreasing_terrace",
        PatternId::Inflexion => b"inflexion",
        PatternId::Peak => b"peak",
        PatternId::Valley => b"valley",
        PatternId::Plateau => b"plateau",
        PatternId::Plain => b"plain",
        PatternId::ProperPlateau => b"proper_plateau",
        PatternId::ProperPlain => b"proper_plain",
        PatternId::Summit => b"summit",
        PatternId::Gorge => b"gorge",
        PatternId::Zigzag => b"zigzag",
        PatternId::DipOnIncreasingSequence => b"dip_on_increasing_sequence",
        PatternId::BumpOnDecreasingSequence => b"bump_on_decreasing_sequence",
    }
}

/// The pattern of that name; None exactly where the word is no pattern's name.
pub fn pattern_of(word: &[u8]) -> Option<PatternId>
    ensures { (id : PatternId) → (result ≡ Some id) ↔ (pattern_name id ≡ word.now) }
{
    find_name(word)
}

/// The first pattern of that name.
fn find_name(word: &[u8]) -> Option<PatternId>
    ensures { result ≡ find (λ id. bytes_eq (pattern_name id) word.now) all_patterns }
{
    PatternId::ALL
        .iter()
        .copied()
        .find(|id| pattern_name(*id) == word)
}

/// The name of a feature, as it stands in a text.
pub fn feature_name(f: Feature) -> &'static [u8]
    ensures { result.now ≡ feature_name f }
{
    match f {
        Feature::One => b"one",
        Feature::Width => b"width",
        Feature::Surf => b"surf",
        Feature::Max => b"max",
        Feature::Min => b"min",
        Feature::Range => b"range",
    }
}

/// The feature of that name; None exactly where the word is no feature's name.
pub fn feature_of(word: &[u8]) -> Option<Feature>
    ensures { (f : Feature) → (result ≡ Some f) ↔ (feature_name f ≡ word.now) }
{
    match word {
        b"one" => Some(Feature::One),
        b"width" => Some(Feature::Width),
        b"surf" => Some(Feature::Surf),
        b"max" => Some(Feature::Max),
        b"min" => Some(Feature::Min),
        b"range" => Some(Feature::Range),
        _ => None,
    }
}

/// The name of an aggregator, as it stands in a text.
pub fn aggregator_name(g: Aggregator) -> &'static [u8]
    ensures { result.now ≡ aggregator_name g }
{
    match g {
        Aggregator::Sum => b"sum",
        Aggregator::Max => b"max",
        Aggregator::Min => b"min",
    }
}

/// The aggregator of that name; None exactly where the word is no aggregator's name.
pub fn aggregator_of(word: &[u8]) -> Option<Aggregator>
    ensures { (g : Aggregator) → (result ≡ Some g) ↔ (aggregator_name g ≡ word.now) }
{
    match word {
        b"sum" => Some(Aggregator::Sum),
        b"max" => Some(Aggregator::Max),
        b"min" => Some(Aggregator::Min),
        _ => None,
    }
}
