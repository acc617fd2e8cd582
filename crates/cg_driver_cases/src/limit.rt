// Limits, as calls answer with them.
use cg_base::Limit;

/// What a call answers where a limit is passed.
pub fn limit_name(limit: Limit) -> &'static str {
    match limit {
        Limit::Source => "limit source\n",
        Limit::Nesting => "limit nesting\n",
        Limit::Functions => "limit functions\n",
        Limit::Fields => "limit fields\n",
        Limit::Ty => "limit type\n",
        Limit::Depth => "limit depth\n",
        Limit::Instances => "limit instances\n",
        Limit::Core => "limit core\n",
        Limit::Heap => "limit heap\n",
        Limit::Certificate => "limit certificate\n",
    }
}
