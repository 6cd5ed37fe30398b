//! An input depends on the paths that it reads alone. The function does nothing but name the laws that it rests on.
ghost use Rattle.laws_frames.specs.Frames.{InputsByWhatIsRead};

/// Each input depends on the paths that it reads alone.
pub fn inputs_by_what_is_read()
    ensures { InputsByWhatIsRead }
{
    ul_load::laws::turns_agree();
    ul_load::laws::loading_ends();
}
