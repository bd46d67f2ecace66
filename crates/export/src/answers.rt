// An answer as two numbers.
ghost use Rattle.std.specs.Prelude.{◌≡◌};
ghost use Rattle.export.specs.Numbers.{number_in, place_in};

use refusals::Refusal;

// 0 and the number of what is accepted in its place, else the refusal's number and place.
pub(crate) fn told(answer: Result<usize, Refusal>, place: &mut u64) -> u32
    ensures number { result ≡ number_in answer }
    ensures place { place.new ≡ place_in answer }
{
    let (number, at) = match answer {
        Ok(accepted) => (0, accepted),
        Err(r) => (r.number(), r.place()),
    };
    *place = at as u64;
    number
}
