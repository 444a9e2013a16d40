//! Lists of texts.
use g_base::Items;
use g_name::Text;

/// A list of texts that contracts see as a list of lists.
pub type Texts = Items<Text>;
