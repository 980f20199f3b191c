// The predictors of a run, out of those that are given.
ghost use Rattle.std.specs.Prelude.{◌≡◌, ◌<◌, ◌≤◌, ◌==◌, if◌then◌else◌, [], Some, None, IfSome, IfNone, length, option_map, remove, slice_get, string_bytes, vec_len};
ghost use Rattle.std.specs.Str.{bytes_eq};
ghost use Rattle.sp_top.specs.Predictors.{first_of, for_trees, others_of};

use sp_chance::Predictor;
use sp_cli::Speed;
use sp_split::Crew;

// Whether the predictor has this name.
fn is_named(predictor: &Box<dyn Predictor>, name: &str) -> bool
    ensures { result ≡ bytes_eq (named predictor.now) name.now }
{
    predictor.name() == name
}

// The place of the first predictor of this name, if there is one.
fn place_of_name(predictors: &[Box<dyn Predictor>], name: &str) -> Option<usize>
    ensures within { IfSome result (λ i. i < length predictors.now) }
    ensures first { IfSome result (λ i. slice_get predictors.now i
        ≡ first_of (λ one. bytes_eq (named one) name.now) predictors.now) }
    ensures others { IfSome result (λ i. remove predictors.now i
        ≡ others_of (λ one. bytes_eq (named one) name.now) predictors.now) }
    ensures none { IfNone result
        (first_of (λ one. bytes_eq (named one) name.now) predictors.now ≡ None) }
{
    for (i, predictor) in predictors.iter().enumerate() {
        if is_named(predictor, name) {
            return Some(i);
        }
    }
    None
}

// Those that follow the first predictor: the others, or none where no predictor ever takes another's place.
fn followers(mut others: Vec<Box<dyn Predictor>>, rotate: u32) -> Vec<Box<dyn Predictor>>
    ensures { result.items ≡ (if rotate == 0 then [] else others.items) }
{
    if rotate > 0 {
        return others;
    }
    others.clear();
    others
}

/// The crew of a run: the first predictor of the name that the speed chooses, if there is one, and behind it the
/// others in their order. Where no predictor ever takes another's place, the others are dropped.
pub(crate) fn crew_of(predictors: Vec<Box<dyn Predictor>>, speed: &Speed) -> Option<Crew>
    ensures first { option_map (λ crew. crew.first) result
        ≡ first_of (λ one. bytes_eq (named one) (string_bytes speed.now.predictor))
        predictors.items }
    ensures named { IfSome result
        (λ crew. named crew.first ≡ string_bytes speed.now.predictor) }
    ensures rest { IfSome result (λ crew. crew.rest.items ≡ (if speed.now.rotate == 0 then []
        else others_of (λ one. bytes_eq (named one) (string_bytes speed.now.predictor))
        predictors.items)) }
    ensures every { IfSome result (λ crew. crew.every ≡ speed.now.rotate) }
{
    let mut others = predictors;
    let place = place_of_name(&others, &speed.predictor)?;
    let first = others.remove(place);
    let every = speed.rotate;
    let rest = followers(others, every);
    Some(Crew { first, rest, every })
}

/// One predictor for each of so many trees: the first of the name that the speed chooses, if there is one, and behind
/// it the first of the others, in their order. None where there are too few.
pub(crate) fn predictors_of(
    predictors: Vec<Box<dyn Predictor>>,
    speed: &Speed,
    trees: u32,
) -> Option<Vec<Box<dyn Predictor>>>
    requires { 1 ≤ trees }
    ensures chosen { option_map (λ chosen. chosen.items) result ≡ for_trees trees
        (λ one. bytes_eq (named one) (string_bytes speed.now.predictor)) predictors.items }
    ensures some { IfSome result (λ chosen. 0 < vec_len chosen) }
{
    let mut chosen = predictors;
    let trees = trees as usize;
    if chosen.len() < trees {
        return None;
    }
    let place = place_of_name(&chosen, &speed.predictor)?;
    let first = chosen.remove(place);
    chosen.push_reserved(first);
    chosen.rotate_right(1);
    chosen.truncate(trees);
    Some(chosen)
}
