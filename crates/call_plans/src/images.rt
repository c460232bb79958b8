// The names of the image.
ghost use Rattle.std.specs.Prelude.{◌≡◌};
ghost use Rattle.machine_model.specs.Filters as spec;

use api_json::IMAGE_NAME;
use engine_text::Text;

/// Whether the name is one of the image's two.
pub fn is_image(image: &Text) -> bool
    ensures { result ≡ spec.is_image image.now }
{
    image.is(IMAGE_NAME) || image.is("engine/tools")
}
