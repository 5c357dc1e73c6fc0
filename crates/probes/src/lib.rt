// Internal functions of the port, exported for the comparisons of differential/ and bench/ alone. No part of the product.
#![tactic(auto)]

mod flat_polygon;
mod probe_clip;
mod probe_floats;
mod probe_sampler;
mod probe_settings;
